//! The threads on which a session is open or was.
ghost use Rattle.std.specs.Prelude.{◌≡◌, ℕ, ◌&&◌, ◌+◌, ◌-◌, ◌<◌, ◌≤◌, [], ◌∷◌, None, Some, is_some, IsSome, slice_index_or, slice_set, length, vec_len, vec_capacity, IfOk, OnOk};
ghost use Rattle.std.specs.List.Sorted.{IsNonDecreasingBy};
ghost use Rattle.ep_defs.specs.declared.limits.TheConstants.{SESSION_THREADS as MOST_THREADS};
ghost use Rattle.ep_defs.specs.declared.session.Marks.{Marks as MarksValue};
ghost use Rattle.ep_stream.specs.declared.opened.Named.{Named as NamedValue};
ghost use Rattle.ep_stream.specs.Named.{insert_by, with_number, with_marks, still_open, numbers_of};
ghost use Rattle.ep_stream.specs.Hands.{hand_at, count_some};

use ep_defs::Marks;
use ep_defs::limits::SESSION_THREADS;
use ep_slot::Hand;
use std::alloc::{AllocError, Global};
use std::mem;

/// A thread that the next point names.
#[derive(Clone, Copy, Debug, PartialEq, Eq)]
pub struct Named {
    pub thread: u64,
    /// The last number that was used at the last steal or the close, or 0.
    pub number: u32,
    /// Whether the session is open on the thread.
    pub is_open: bool,
}

/// What a session has of its threads.
#[derive(Debug, Drop)]
pub(crate) struct Opened {
    // On how many threads it was opened.
    count: usize,
    // The hand of each row, from row 1 on, if the session is open there.
    hands: Vec<Option<Hand>>,
    // The threads that the next point names, ascending.
    named: Vec<Named>,
    // Room for what that point says.
    numbers: Vec<(u64, u32)>,
    // Of the threads on which the session was closed, ascending. There is room for those of all hands.
    marks: Vec<Marks>,
    ghost within: { count ≤ MOST_THREADS },
    ghost counted: { vec_len marks + count_some hands.items ≤ count },
    ghost few: { vec_len named ≤ count },
    ghost numbers_room: { vec_len named ≤ vec_capacity numbers },
    ghost marks_room: { count ≤ vec_capacity marks },
    ghost named_rise: { IsNonDecreasingBy (λ n. n.thread) named.items },
    ghost marks_rise: { IsNonDecreasingBy (λ m. m.thread) marks.items },
}

impl Opened {
    ghost use Rattle.ep_stream.specs.Opened.{hand_on, hands_in, named_in, marks_in, numbers_in, opened_count, HasRoom, LacksHand};
    ghost use Rattle.ep_stream.specs.Named.{first_named, insert_by, with_number, with_marks, still_open, numbers_of};

    /// Of a session that is open nowhere. It takes the memory for so many rows.
    pub(crate) fn new(alloc: Global, rows: u32) -> Result<Opened, AllocError>
        ensures hands { IfOk result (λ opened. hands_in opened ≡ []) }
        ensures named { IfOk result (λ opened. named_in opened ≡ []) }
        ensures marks { IfOk result (λ opened. marks_in opened ≡ []) }
        ensures count { IfOk result (λ opened. opened_count opened ≡ 0) }
    {
        let rows = rows as usize;
        Ok(Opened {
            count: 0,
            hands: Vec::with_capacity(alloc, rows)?,
            named: Vec::with_capacity(alloc, rows)?,
            numbers: Vec::with_capacity(alloc, rows)?,
            marks: Vec::with_capacity(alloc, rows)?,
        })
    }

    /// Makes the room that the session needs to be opened on a row.
    pub(crate) fn reserve(&mut self, row: u32) -> Result<(), AllocError>
        requires { opened_count self.old < SESSION_THREADS }
        ensures room { OnOk result (HasRoom row self.new) }
        ensures hands { (r : ℕ) → hand_on self.new r ≡ hand_on self.old r }
        ensures named { named_in self.new ≡ named_in self.old }
        ensures marks { marks_in self.new ≡ marks_in self.old }
        ensures count { opened_count self.new ≡ opened_count self.old }
    {
        self.named.reserve(1)?;
        self.numbers.clear();
        self.numbers.reserve(self.named.len() + 1)?;
        self.marks.reserve(self.count + 1 - self.marks.len())?;
        lengthen(&mut self.hands, row as usize)
    }

    /// Puts down that the session was opened on a row.
    #[tactic(auto, using(crate::proofs::Hands::hand_at_is))]
    pub(crate) fn open_on(&mut self, row: u32, hand: Hand)
        requires room { HasRoom row self.old }
        requires row { 0 < row }
        requires off { hand_on self.old row ≡ None }
        requires few { opened_count self.old < SESSION_THREADS }
        ensures hands { hands_in self.new ≡ slice_set (hands_in self.old) (row - 1) (Some hand) }
        ensures named { named_in self.new ≡ insert_by (λ n. n.thread) (first_named hand.thread) (named_in self.old) }
        ensures marks { marks_in self.new ≡ marks_in self.old }
        ensures count { opened_count self.new ≡ opened_count self.old + 1 }
    {
        let name = Named {
            thread: hand.thread(),
            number: 0,
            is_open: true,
        };
        self.count += 1;
        name_one(&mut self.named, name);
        put_hand(&mut self.hands, row as usize - 1, hand);
    }

    /// Takes the hand of a row out.
    #[tactic(auto, using(crate::proofs::Hands::hand_at_is))]
    pub(crate) fn lift(&mut self, row: u32) -> Hand
        requires { IsSome (hand_on self.old row) }
        ensures hand { hand_on self.old row ≡ Some result }
        ensures hands { hands_in self.new ≡ slice_set (hands_in self.old) (row - 1) None }
        ensures named { named_in self.new ≡ named_in self.old }
        ensures marks { marks_in self.new ≡ marks_in self.old }
        ensures count { opened_count self.new ≡ opened_count self.old }
        ensures lacks { LacksHand row self.new }
    {
        take_hand(&mut self.hands, row as usize - 1)
    }

    /// Puts a hand that was taken out back.
    #[tactic(auto, using(crate::proofs::Hands::hand_at_is))]
    pub(crate) fn put(&mut self, row: u32, hand: Hand)
        requires { LacksHand row self.old }
        ensures hands { hands_in self.new ≡ slice_set (hands_in self.old) (row - 1) (Some hand) }
        ensures named { named_in self.new ≡ named_in self.old }
        ensures marks { marks_in self.new ≡ marks_in self.old }
        ensures count { opened_count self.new ≡ opened_count self.old }
    {
        put_hand(&mut self.hands, row as usize - 1, hand);
    }

    /// Keeps what the session had of a thread whose hand was taken out.
    pub(crate) fn mark(&mut self, row: u32, mark: Marks)
        requires { LacksHand row self.old }
        ensures marks { marks_in self.new ≡ with_marks mark (marks_in self.old) }
        ensures hands { hands_in self.new ≡ hands_in self.old }
        ensures named { named_in self.new ≡ named_in self.old }
        ensures count { opened_count self.new ≡ opened_count self.old }
    {
        mark_one(&mut self.marks, mark);
    }

    /// Puts down the last number of a thread, on which the session stays open or not.
    pub(crate) fn number(&mut self, thread: u64, number: u32, stays: bool)
        ensures named { named_in self.new ≡ with_number thread number stays (named_in self.old) }
        ensures hands { hands_in self.new ≡ hands_in self.old }
        ensures marks { marks_in self.new ≡ marks_in self.old }
        ensures count { opened_count self.new ≡ opened_count self.old }
    {
        number_thread(self.named.as_mut_slice(), thread, number, stays);
    }

    /// Whether the session is open on a row.
    pub(crate) fn is_open(&self, row: u32) -> bool
        ensures { result ≡ is_some (hand_on self.now row) }
    {
        row > 0 && matches!(self.hands.get(row as usize - 1), Some(Some(_)))
    }

    /// Puts down what a point says: the threads, ascending, each with its last number. It takes no memory.
    pub(crate) fn count_off(&mut self)
        ensures numbers { numbers_in self.new ≡ numbers_of (named_in self.old) }
        ensures hands { hands_in self.new ≡ hands_in self.old }
        ensures named { named_in self.new ≡ named_in self.old }
        ensures marks { marks_in self.new ≡ marks_in self.old }
        ensures count { opened_count self.new ≡ opened_count self.old }
    {
        put_numbers(&mut self.numbers, self.named.as_slice());
    }

    /// Puts thread 0 in front of what was put down, with the number of its last event.
    pub(crate) fn count_first(&mut self, number: u32) -> Result<(), AllocError>
        ensures numbers { OnOk result (numbers_in self.new ≡ (0, number) ∷ numbers_in self.old) }
        ensures hands { hands_in self.new ≡ hands_in self.old }
        ensures named { named_in self.new ≡ named_in self.old }
        ensures marks { marks_in self.new ≡ marks_in self.old }
        ensures count { opened_count self.new ≡ opened_count self.old }
    {
        self.numbers.insert(0, (0, number))?;
        Ok(())
    }

    /// What the point says that was put down last.
    pub(crate) fn numbers(&self) -> &[(u64, u32)]
        ensures { result.now ≡ numbers_in self.now }
    {
        self.numbers.as_slice()
    }

    /// Leaves out the threads on which the session was closed: their last numbers are told.
    pub(crate) fn forget_closed(&mut self)
        ensures named { named_in self.new ≡ still_open (named_in self.old) }
        ensures hands { hands_in self.new ≡ hands_in self.old }
        ensures marks { marks_in self.new ≡ marks_in self.old }
        ensures count { opened_count self.new ≡ opened_count self.old }
    {
        keep_open(&mut self.named);
    }

    /// What the session had of each thread on which it was closed, ascending by thread.
    pub(crate) fn into_marks(self) -> Vec<Marks>
        ensures { result.items ≡ marks_in self }
    {
        let Opened {
            count: _,
            hands: _,
            named: _,
            numbers: _,
            marks,
        } = self;
        marks
    }
}

// Makes a list of hands as long as this.
#[tactic(auto, using(crate::proofs::Hands::hand_at_longer, crate::proofs::Hands::count_longer))]
fn lengthen(hands: &mut Vec<Option<Hand>>, len: usize) -> Result<(), AllocError>
    ensures len { OnOk result (len ≤ vec_len hands.new) }
    ensures hands { (r : ℕ) → hand_at hands.new.items r ≡ hand_at hands.old.items r }
    ensures count { count_some hands.new.items ≡ count_some hands.old.items }
{
    for place in hands.len()..len {
        hands.push(None)?;
    }
    Ok(())
}

// Takes the hand at a place out.
#[tactic(auto, using(crate::proofs::Hands::count_taken))]
fn take_hand(hands: &mut Vec<Option<Hand>>, place: usize) -> Hand
    requires within { place < length hands.old.items }
    requires some { IsSome (slice_index_or hands.old.items place None) }
    ensures hand { slice_index_or hands.old.items place None ≡ Some result }
    ensures items { hands.new.items ≡ slice_set hands.old.items place None }
    ensures len { length hands.new.items ≡ length hands.old.items }
    ensures count { count_some hands.old.items ≡ count_some hands.new.items + 1 }
    ensures none { slice_index_or hands.new.items place None ≡ None }
{
    match mem::replace(&mut hands[place], None) {
        Some(hand) => hand,
        None => unreachable!(),
    }
}

// Puts a hand down at a place where there is none.
#[tactic(auto, using(crate::proofs::Hands::count_put))]
fn put_hand(hands: &mut Vec<Option<Hand>>, place: usize, hand: Hand)
    requires within { place < length hands.old.items }
    requires none { slice_index_or hands.old.items place None ≡ None }
    ensures items { hands.new.items ≡ slice_set hands.old.items place (Some hand) }
    ensures count { count_some hands.new.items ≡ count_some hands.old.items + 1 }
{
    hands[place] = Some(hand);
}

// Puts down what a point says of these threads. There is room for it.
fn put_numbers(numbers: &mut Vec<(u64, u32)>, named: &[Named])
    requires { length named.now ≤ vec_capacity numbers.old }
    ensures items { numbers.new.items ≡ numbers_of named.now }
    ensures capacity { vec_capacity numbers.old ≤ vec_capacity numbers.new }
{
    numbers.clear();
    for name in named {
        if numbers.push((name.thread, name.number)).is_err() {
            unreachable!();
        }
    }
}

// Leaves out the threads on which the session was closed.
fn keep_open(named: &mut Vec<Named>)
    requires rise { IsNonDecreasingBy (λ n. n.thread) named.old.items }
    ensures items { named.new.items ≡ still_open named.old.items }
    ensures len { vec_len named.new ≤ vec_len named.old }
    ensures rise { IsNonDecreasingBy (λ n. n.thread) named.new.items }
{
    named.retain(|name| name.is_open);
}

// The place of the first thread that is not below this one.
fn place_of(named: &[Named], thread: u64) -> usize
    requires { IsNonDecreasingBy (λ n. n.thread) named.now }
    ensures within { result ≤ length named.now }
    ensures below { (k : ℕ) (d : NamedValue) → k < result → (slice_index_or named.now k d).thread < thread }
    ensures others { (k : ℕ) (d : NamedValue) → result ≤ k → k < length named.now → thread ≤ (slice_index_or named.now k d).thread }
{
    named.partition_point(|name| name.thread < thread)
}

// The place of the first thread that is above this one.
fn place_behind(named: &[Named], thread: u64) -> usize
    requires { IsNonDecreasingBy (λ n. n.thread) named.now }
    ensures within { result ≤ length named.now }
    ensures below { (k : ℕ) (d : NamedValue) → k < result → (slice_index_or named.now k d).thread ≤ thread }
    ensures others { (k : ℕ) (d : NamedValue) → result ≤ k → k < length named.now → thread < (slice_index_or named.now k d).thread }
{
    named.partition_point(|name| name.thread <= thread)
}

// The place of the first marks of a thread above this one.
fn mark_place(marks: &[Marks], thread: u64) -> usize
    requires { IsNonDecreasingBy (λ m. m.thread) marks.now }
    ensures within { result ≤ length marks.now }
    ensures below { (k : ℕ) (d : MarksValue) → k < result → (slice_index_or marks.now k d).thread ≤ thread }
    ensures others { (k : ℕ) (d : MarksValue) → result ≤ k → k < length marks.now → thread < (slice_index_or marks.now k d).thread }
{
    marks.partition_point(|mark| mark.thread <= thread)
}

// Names a thread more, for which there is room.
fn name_one(named: &mut Vec<Named>, name: Named)
    requires room { vec_len named.old < vec_capacity named.old }
    requires rise { IsNonDecreasingBy (λ n. n.thread) named.old.items }
    ensures items { named.new.items ≡ insert_by (λ n. n.thread) name named.old.items }
    ensures len { vec_len named.new ≡ vec_len named.old + 1 }
    ensures rise { IsNonDecreasingBy (λ n. n.thread) named.new.items }
{
    let place = place_behind(named.as_slice(), name.thread);
    if named.insert(place, name).is_err() {
        unreachable!();
    }
}

// Changes the last number of a thread.
fn number_thread(named: &mut [Named], thread: u64, number: u32, stays: bool)
    requires { IsNonDecreasingBy (λ n. n.thread) named.old }
    ensures items { named.new ≡ with_number thread number stays named.old }
    ensures len { length named.new ≡ length named.old }
    ensures rise { IsNonDecreasingBy (λ n. n.thread) named.new }
{
    let place = place_of(named, thread);
    if place == named.len() {
        return;
    }
    let name = named[place];
    if name.thread != thread {
        return;
    }
    named[place] = numbered(name, number, stays);
}

// A thread with another last number.
fn numbered(name: Named, number: u32, stays: bool) -> Named
    ensures { result ≡ record name { number = number; is_open = name.is_open && stays } }
{
    Named {
        number,
        is_open: name.is_open && stays,
        ..name
    }
}

// Puts down the marks of a thread more, for which there is room.
fn mark_one(marks: &mut Vec<Marks>, mark: Marks)
    requires room { vec_len marks.old < vec_capacity marks.old }
    requires rise { IsNonDecreasingBy (λ m. m.thread) marks.old.items }
    ensures items { marks.new.items ≡ with_marks mark marks.old.items }
    ensures len { vec_len marks.new ≡ vec_len marks.old + 1 }
    ensures capacity { vec_capacity marks.old ≤ vec_capacity marks.new }
    ensures rise { IsNonDecreasingBy (λ m. m.thread) marks.new.items }
{
    let place = mark_place(marks.as_slice(), mark.thread);
    if marks.insert(place, mark).is_err() {
        unreachable!();
    }
}
