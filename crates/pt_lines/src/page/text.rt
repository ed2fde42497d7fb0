//! The text of the page.

/// What stands before the objects: the page with the script that draws it. No other script is run in it, since it says the
/// script's hash (Content Security Policy, level 3); `bench/page.sh` says what it has to be where the script was changed.
pub const HEAD: &str = r##"<!DOCTYPE html>
<html lang="en">
<head>
<meta charset="utf-8">
<meta name="viewport" content="width=device-width, initial-scale=1">
<meta http-equiv="Content-Security-Policy"
  content="default-src 'none'; style-src 'unsafe-inline'; script-src 'sha256-eWtJnYvmVcnMvh/iZIzZRmrltWFx3dXlZ7qQ4xxFsa0='">
<title>tracepipe: a trace</title>
<style>
:root {
  color-scheme: light dark;
  --ground: #ffffff; --raised: #f5f6f8; --text: #1c2026; --faint: #5b6470; --line: #d9dde3; --lost: #c4161c;
  --p0: #3b6fd4; --p1: #d98a00; --p2: #2f9e6e; --p3: #9357d3; --p4: #d6568c; --p5: #2a9fb5; --p6: #8a929d;
}
@media (prefers-color-scheme: dark) {
  :root {
    --ground: #14171b; --raised: #1d2127; --text: #e6e9ed; --faint: #9aa4b0; --line: #343b45; --lost: #ff6b6b;
    --p0: #6f9cf0; --p1: #f0b040; --p2: #55c795; --p3: #b98af0; --p4: #f08ab4; --p5: #5cc8dc; --p6: #7d8692;
  }
}
* { box-sizing: border-box; }
body { margin: 0 auto; max-width: 80rem; padding: 1rem; background: var(--ground); color: var(--text); }
body { font: 15px/1.45 system-ui, sans-serif; }
h1 { margin: 0 0 .75rem; font-size: 1.4rem; }
h2 { margin: 0 0 .5rem; font-size: 1.05rem; }
main { display: grid; gap: 1.5rem; grid-template-columns: repeat(auto-fit, minmax(min(100%, 28rem), 1fr)); }
main > * { min-width: 0; }
.wide { grid-column: 1 / -1; }
.error { border-left: 4px solid var(--lost); padding: .5rem .75rem; background: var(--raised); }
.facts { display: flex; flex-wrap: wrap; gap: .5rem; margin: 0; }
.facts div { background: var(--raised); border-radius: 6px; padding: .4rem .75rem; }
.facts dt { color: var(--faint); font-size: .8rem; }
.facts dd { margin: 0; font-size: 1.15rem; font-variant-numeric: tabular-nums; }
.legend { display: flex; flex-wrap: wrap; gap: .25rem 1rem; margin: 0 0 .5rem; padding: 0; list-style: none; font-size: .85rem; }
.legend li { overflow-wrap: anywhere; }
.swatch { display: inline-block; width: .75em; height: .75em; margin-right: .4em; border-radius: 2px; }
.note { margin: .4rem 0 0; color: var(--faint); font-size: .85rem; }
.scroll { overflow: auto; max-height: 32rem; border: 1px solid var(--line); border-radius: 6px; }
table { border-collapse: collapse; width: 100%; font-size: .9rem; }
th, td { padding: .3rem .6rem; text-align: left; vertical-align: top; border-bottom: 1px solid var(--line); unicode-bidi: isolate; }
tr:last-child td { border-bottom: 0; }
th { position: sticky; top: 0; background: var(--raised); color: var(--faint); font-weight: 600; white-space: nowrap; }
@media (max-width: 30rem) { th, td { padding: .3rem .4rem; } }
.number { text-align: right; font-variant-numeric: tabular-nums; white-space: nowrap; }
.code { font-family: ui-monospace, monospace; font-size: .85rem; white-space: pre; }
.some { color: var(--lost); font-weight: 600; }
svg { display: block; width: 100%; }
svg text { fill: var(--faint); font: 11px system-ui, sans-serif; }
.rule { stroke: var(--line); }
.point { stroke: var(--faint); }
.lost { fill: var(--lost); stroke: var(--ground); }
.c0 { fill: var(--p0); background: var(--p0); } .c1 { fill: var(--p1); background: var(--p1); }
.c2 { fill: var(--p2); background: var(--p2); } .c3 { fill: var(--p3); background: var(--p3); }
.c4 { fill: var(--p4); background: var(--p4); } .c5 { fill: var(--p5); background: var(--p5); }
.c6 { fill: var(--p6); background: var(--p6); }
.mark { background: var(--lost); border-radius: 50%; }
</style>
<script>
"use strict";
// What a trace says comes into the page as text and in no other way.

const OTHER = 6; // the colour of all providers but the six with the most events
const MOST_ROWS = 40; // threads with a row of their own
const MOST_LINES = 500; // of a table
const MOST_STACKS = 20;
const BIN = 3; // pixels of a column of events
const MARK = 8; // pixels of a column of lost places

function put(element, content, attributes) {
  for (const [name, value] of Object.entries(attributes)) element.setAttribute(name, value);
  element.append(...content);
  return element;
}

function html(name, content = [], attributes = {}) {
  return put(document.createElement(name), content, attributes);
}

function svg(name, attributes = {}, content = []) {
  return put(document.createElementNS("http://www.w3.org/2000/svg", name), content, attributes);
}

const exact = (number) => number.toLocaleString("en");
const shown = (text) => (text === "" ? "-" : text);

// A number of ticks in few letters.
function short(number) {
  for (const [unit, letter] of [[1e12, "T"], [1e9, "G"], [1e6, "M"], [1e3, "k"]])
    if (number >= unit) return `${Number((number / unit).toPrecision(4))} ${letter}`;
  return String(number);
}

// ---- what the trace holds

// The objects, and whether the page has them all: one that was not written to its end has those on whole lines.
function read() {
  const text = document.getElementById("items").textContent;
  try {
    return [JSON.parse(text), true];
  } catch {
    return [JSON.parse(text.slice(0, Math.max(1, text.lastIndexOf("\n") + 1)) + "]"), false];
  }
}

// What a map has under a key that is made of values of any text.
function under(map, values, fresh) {
  const key = JSON.stringify(values);
  let found = map.get(key);
  if (found === undefined) map.set(key, (found = { values, count: 0, ...fresh }));
  return found;
}

function counted(map, values, fresh) {
  const found = under(map, values, fresh);
  found.count++;
  return found;
}

const by_count = (map) => [...map.values()].sort((a, b) => b.count - a.count);

function gather(items) {
  const all = {
    threads: new Map(), providers: new Map(), kinds: new Map(), stacks: new Map(),
    events: [], places: [], points: [], lost: 0, first: Infinity, last: -Infinity,
  };
  const thread_of = (id) => under(all.threads, [id], { lost: 0, places: 0, number: 0 });
  let waiting = [];
  // A place where something is lost is at the stamp of the event or the point behind it.
  const place = (stamp) => {
    for (const { thread, lost } of waiting) all.places.push({ stamp, thread, lost });
    waiting = [];
  };
  for (const item of items) {
    if (item.kind === "lost") {
      const thread = thread_of(item.thread);
      thread.lost += item.count;
      thread.places++;
      all.lost += item.count;
      waiting.push({ thread, lost: item.count });
      continue;
    }
    const stamp = Number(item.stamp);
    all.first = Math.min(all.first, stamp);
    all.last = Math.max(all.last, stamp);
    place(stamp);
    if (item.kind === "point") {
      all.points.push(stamp);
      for (const known of item.threads) thread_of(known.thread).number = known.number;
      continue;
    }
    const thread = thread_of(item.thread);
    thread.count++;
    thread.number = item.number;
    const provider = counted(all.providers, [item.provider]);
    counted(all.kinds, [item.provider, item.name, item.id, item.version]);
    if (item.stack.length > 0) counted(all.stacks, item.stack);
    all.events.push({ stamp, thread, provider });
  }
  place(all.last);
  if (all.first > all.last) all.first = all.last = 0;
  by_count(all.providers).forEach((provider, rank) => (provider.colour = Math.min(rank, OTHER)));
  return all;
}

// ---- tables

function cell(value) {
  if (value instanceof HTMLTableCellElement) return value;
  if (value instanceof Node) return html("td", [value]);
  if (typeof value === "number") return html("td", [exact(value)], { class: "number" });
  return html("td", [shown(value)]);
}

function section(title, content, wide) {
  return html("section", [html("h2", [title]), ...content], wide ? { class: "wide" } : {});
}

// Columns with a `#` before their name hold numbers.
function table(title, columns, rows, most = MOST_LINES) {
  const head = columns.map((name) =>
    name.startsWith("#") ? html("th", [name.slice(1)], { class: "number" }) : html("th", [name]));
  const lines = rows.slice(0, most).map((row) => html("tr", row.map(cell)));
  const whole = html("table", [html("thead", [html("tr", head)]), html("tbody", lines)]);
  const content = [html("div", [whole], { class: "scroll" })];
  if (rows.length > most) content.push(html("p", [`${exact(rows.length - most)} more are not shown.`], { class: "note" }));
  if (rows.length === 0) return section(title, [html("p", ["None."], { class: "note" })]);
  return section(title, content);
}

const swatch = (colour) => html("span", [], { class: `swatch c${colour}` });
const lost_of = (name, count) => html(name, [exact(count)], { class: count > 0 ? "number some" : "number" });

function tables(all) {
  const threads = [...all.threads.values()].sort((a, b) => Number(a.values[0]) - Number(b.values[0]));
  const stacks = by_count(all.stacks);
  return [
    table("Threads", ["Thread", "#Events", "#Last", "#Lost", "#Places"],
      threads.map((t) => [String(t.values[0]), t.count, t.number, lost_of("td", t.lost), t.places])),
    table("Providers", ["Provider", "#Events"],
      by_count(all.providers).map((p) => [html("span", [swatch(p.colour), shown(p.values[0])]), p.count])),
    table("Events", ["Provider", "Event", "#Events", "#Id", "#Version"],
      by_count(all.kinds).map((k) => [k.values[0], k.values[1], k.count, k.values[2], k.values[3]])),
    table("Most used stacks", ["#Events", "Addresses, the innermost first"],
      stacks.map((s) => [s.count, html("span", [s.values.map((a) => `0x${a}`).join("\n")], { class: "code" })]), MOST_STACKS),
  ];
}

function facts(all) {
  const pairs = [
    ["events", exact(all.events.length)], ["threads", exact(all.threads.size)], ["providers", exact(all.providers.size)],
    ["lost", lost_of("span", all.lost)], ["points", exact(all.points.length)], ["ticks", short(all.last - all.first)],
  ];
  return html("dl", pairs.map(([name, value]) => html("div", [html("dt", [name]), html("dd", [value])])), { class: "facts wide" });
}

// ---- the picture

// Steps of 1, 2 or 5 times a power of ten, at most so many in a span.
function step_of(span, most) {
  const least = span / most;
  const power = 10 ** Math.floor(Math.log10(least));
  return Math.max(1, [1, 2, 5, 10].map((n) => n * power).find((step) => step >= least));
}

// The threads with the most events have a row each, in the order of their ids, and the others one together.
function rows_of(all) {
  const ranked = by_count(all.threads);
  const own = ranked.slice(0, MOST_ROWS).sort((a, b) => Number(a.values[0]) - Number(b.values[0]));
  const rows = own.map((thread) => `thread ${thread.values[0]}`);
  own.forEach((thread, row) => (thread.row = row));
  ranked.slice(MOST_ROWS).forEach((thread) => (thread.row = own.length));
  if (ranked.length > MOST_ROWS) rows.push(`${exact(ranked.length - MOST_ROWS)} other threads`);
  return rows;
}

// How many events of each colour stand in each column of each row.
function bins_of(all, rows, columns, column_of) {
  const bins = Array.from({ length: rows * (OTHER + 1) }, () => new Uint32Array(columns));
  for (const { stamp, thread, provider } of all.events) bins[thread.row * (OTHER + 1) + provider.colour][column_of(stamp)]++;
  return bins;
}

const row_of = (bins, row) => bins.slice(row * (OTHER + 1), (row + 1) * (OTHER + 1));
const sum_at = (bins, column) => bins.reduce((sum, bin) => sum + bin[column], 0);

// How many events stand in the fullest column of these rows.
function fullest_of(bins, rows, columns) {
  let fullest = 1;
  for (let row = 0; row < rows; row++)
    for (let column = 0; column < columns; column++) fullest = Math.max(fullest, sum_at(row_of(bins, row), column));
  return fullest;
}

// The columns of a row, one colour on another. A column is as high as the root of its part of the fullest one of a thread.
function row_paths(bins, row, fullest, base, height) {
  const mine = row_of(bins, row);
  const columns = mine[0].length;
  const paths = mine.map(() => []);
  for (let column = 0; column < columns; column++) {
    const sum = sum_at(mine, column);
    if (sum === 0) continue;
    const tall = Math.max(2, height * Math.sqrt(Math.min(1, sum / fullest)));
    let top = base;
    mine.forEach((bin, colour) => {
      const part = (tall * bin[column]) / sum;
      if (part > 0) paths[colour].push(`M${column * BIN} ${top.toFixed(1)}h${BIN}v-${part.toFixed(1)}h-${BIN}z`);
      top -= part;
    });
  }
  return paths.flatMap((path, colour) => (path.length > 0 ? [svg("path", { d: path.join(""), class: `c${colour}` })] : []));
}

// The places where something is lost, one mark for all of a row that stand close together.
function marks(all, x_of, top_of) {
  const found = new Map();
  for (const { stamp, thread, lost } of all.places) {
    const column = Math.floor(x_of(stamp) / MARK);
    const mark = counted(found, [thread.row, column], { lost: 0, at: stamp, thread: thread.values[0] });
    mark.lost += lost;
  }
  return [...found.values()].map(({ values: [row, column], count, lost, at, thread }) => {
    const places = `${exact(count)} ${count === 1 ? "place" : "places"}`;
    const where = `lost of thread ${thread}: ${exact(lost)}, at ${places} from tick ${exact(at - all.first)}`;
    const shape = `M${column * MARK} ${top_of(row)}h${MARK}l-${MARK / 2} ${MARK - 2}z`;
    return svg("path", { d: shape, class: "lost" }, [svg("title", {}, [where])]);
  });
}

function picture(all, width) {
  const rows = rows_of(all);
  const [label, height, gap, axis] = [18, 22, 6, 24];
  const top_of = (row) => row * (label + height + gap);
  const bottom = top_of(rows.length);
  const columns = Math.max(1, Math.floor(width / BIN));
  const span = Math.max(1, all.last - all.first);
  const column_of = (stamp) => Math.min(columns - 1, Math.floor(((stamp - all.first) / span) * columns));
  const x_of = (stamp) => column_of(stamp) * BIN;
  const bins = bins_of(all, rows.length, columns, column_of);
  const fullest = fullest_of(bins, Math.min(rows.length, MOST_ROWS), columns);
  const parts = [];
  const step = step_of(span, Math.max(2, width / 60));
  for (let at = 0; at < span; at += step) {
    const x = (at / span) * columns * BIN;
    parts.push(svg("line", { x1: x, x2: x, y1: 0, y2: bottom + 4, class: "rule" }));
    if (x < width - 40) parts.push(svg("text", { x: x + 3, y: bottom + 18 }, [short(at)]));
  }
  rows.forEach((name, row) => {
    const base = top_of(row) + label + height;
    parts.push(svg("text", { x: 0, y: top_of(row) + 11 }, [name]), ...row_paths(bins, row, fullest, base, height));
    parts.push(svg("line", { x1: 0, x2: width, y1: base + 0.5, y2: base + 0.5, class: "rule" }));
  });
  for (const x of new Set(all.points.map(x_of)))
    parts.push(svg("line", { x1: x, x2: x, y1: bottom - 3, y2: bottom + 4, class: "point" }));
  parts.push(...marks(all, x_of, (row) => top_of(row) + label - 5));
  const size = { viewBox: `0 0 ${width} ${bottom + axis}`, height: bottom + axis };
  return svg("svg", { ...size, role: "img", "aria-label": "Events over time, a row for each thread" }, parts);
}

function legend(all) {
  const named = by_count(all.providers).slice(0, OTHER).map((p) => html("li", [swatch(p.colour), shown(p.values[0])]));
  if (all.providers.size > OTHER) named.push(html("li", [swatch(OTHER), `${exact(all.providers.size - OTHER)} other providers`]));
  if (all.lost > 0) named.push(html("li", [html("span", [], { class: "swatch mark" }), "something is lost here"]));
  return html("ul", named, { class: "legend" });
}

// The picture is drawn anew where its width changes.
function timeline(all) {
  const room = html("div");
  let drawn = 0;
  new ResizeObserver(([{ contentRect }]) => {
    const width = Math.floor(contentRect.width);
    if (width === drawn || width === 0) return;
    drawn = width;
    room.replaceChildren(picture(all, width));
  }).observe(room);
  const ticks = "Ticks of the trace's clock since its first event: nanoseconds, where tracepipe wrote it.";
  const note = html("p", [ticks, " Short strokes above the ticks are sequence points."], { class: "note" });
  return section("Events over time", [legend(all), room, note], true);
}

// ---- the page

function show() {
  const main = document.querySelector("main");
  const [items, whole] = read();
  const error = document.getElementById("error");
  const warn = (text) => main.append(html("p", [text], { class: "error wide" }));
  if (error !== null) {
    const { offset, error: words } = JSON.parse(error.textContent);
    warn(`The trace is wrong at offset ${offset}: ${words}. This is what stands before that place.`);
  }
  if (!whole) warn("This page was not written to its end. This is what stands in it.");
  const all = gather(items);
  main.append(facts(all));
  if (all.events.length > 0) main.append(timeline(all));
  main.append(...tables(all));
}

document.addEventListener("DOMContentLoaded", show);
</script>
</head>
<body>
<h1>A trace, by tracepipe</h1>
<main></main>
<noscript>The script of this page draws it.</noscript>
<script type="application/json" id="items">["##;
