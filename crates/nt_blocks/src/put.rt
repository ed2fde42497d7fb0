//! Bodies of stacks and of points.
ghost use Rattle.std.specs.Prelude.{◌≡◌, ℕ, ◌+◌, ◌<◌, ◌≤◌, ◌^◌, [], ◌∷◌, ◌++◌, length, OnOk, OnErr};
ghost use Rattle.std.specs.List.{AllByRecursion};
ghost use Rattle.ep_defs.specs.Ranges.{AreBytes};
ghost use Rattle.ep_defs.specs.declared.item.ItemKind.TheVariants as item;
ghost use Rattle.nt_object.specs.declared.object.BlockKind.TheVariants as block;
ghost use Rattle.nt_blocks.specs.Bodies.{IsBody, point_body, stack_body, stack_bytes, stack_items, thread_bytes};
ghost use Rattle.nt_blocks.specs.declared.limits.TheConstants.{LAST_COUNT, POINT_THREADS};
ghost use Rattle.pt_num.specs.Begins.{Keeps};

use ep_defs::Bytes;
use ep_defs::ranges::bytes_fit;
use pt_num::{put_u32, put_u64};
use std::alloc::AllocError;

/// Appends the body of stacks with the ids from the first one on.
pub fn put_stacks(out: &mut Vec<u8>, first: u32, stacks: &[Bytes]) -> Result<(), AllocError>
    requires first { 0 < first }
    requires ids { first + length stacks.now ≤ LAST_COUNT }
    requires small { length (stack_body first stacks.now) < 2 ^ 31 }
    ensures ok { OnOk result (out.new.items ≡ out.old.items ++ stack_body first stacks.now) }
    ensures form { (at : ℕ)
        → OnOk result (IsBody block.Stack at (stack_items (at + 8) first stacks.now) (stack_body first stacks.now)) }
    ensures err { OnErr result (out.new.items ≡ out.old.items) }
{
    let start = out.len();
    let put = append_stacks(out, first, stacks);
    if put.is_err() {
        out.truncate(start);
    }
    put
}

fn append_stacks(out: &mut Vec<u8>, first: u32, stacks: &[Bytes]) -> Result<(), AllocError>
    requires ids { first + length stacks.now ≤ LAST_COUNT }
    requires small { length (stack_body first stacks.now) < 2 ^ 31 }
    ensures ok { OnOk result (out.new.items ≡ out.old.items ++ stack_body first stacks.now) }
    ensures bytes { OnOk result (AreBytes out.new.items) }
    ensures err { OnErr result (Keeps out.old.items out.new.items) }
{
    put_u32(out, first)?;
    put_u32(out, stacks.len() as u32)?;
    for stack in stacks {
        append_stack(out, stack)?;
    }
    bytes_fit(out);
    Ok(())
}

fn append_stack(out: &mut Vec<u8>, stack: &Bytes) -> Result<(), AllocError>
    requires { length stack.now < 2 ^ 31 }
    ensures ok { OnOk result (out.new.items ≡ out.old.items ++ stack_bytes stack.now) }
    ensures err { OnErr result (Keeps out.old.items out.new.items) }
{
    let bytes = stack.as_slice();
    put_u32(out, bytes.len() as u32)?;
    out.extend_from_slice(bytes)
}

/// Appends the body of a point: how far each thread had come.
pub fn put_point(out: &mut Vec<u8>, stamp: u64, threads: &[(u64, u32)]) -> Result<(), AllocError>
    requires { length threads.now ≤ POINT_THREADS }
    ensures ok { OnOk result (out.new.items ≡ out.old.items ++ point_body stamp threads.now) }
    ensures form { (at : ℕ) → OnOk result (IsBody block.Point at (record {
      at = at;
      kind = item.Point stamp threads.now;
    } ∷ []) (point_body stamp threads.now)) }
    ensures err { OnErr result (out.new.items ≡ out.old.items) }
{
    let start = out.len();
    let put = append_point(out, stamp, threads);
    if put.is_err() {
        out.truncate(start);
    }
    put
}

fn append_point(out: &mut Vec<u8>, stamp: u64, threads: &[(u64, u32)]) -> Result<(), AllocError>
    requires { length threads.now ≤ POINT_THREADS }
    ensures ok { OnOk result (out.new.items ≡ out.old.items ++ point_body stamp threads.now) }
    ensures bytes { OnOk result (AreBytes out.new.items) }
    ensures fit { OnOk result (AllByRecursion (λ thread. (thread.0 < 2 ^ 64)
        × (thread.1 < 2 ^ 32)) threads.now) }
    ensures err { OnErr result (Keeps out.old.items out.new.items) }
{
    put_u64(out, stamp)?;
    put_u32(out, threads.len() as u32)?;
    for (thread, number) in threads {
        put_u64(out, *thread)?;
        put_u32(out, *number)?;
    }
    bytes_fit(out);
    Ok(())
}
