//! Steps that are printed, each as one line.
ghost use Rattle.std.specs.Prelude.{◌≡◌, ◌∷◌, [], IfOk, replicate};
ghost use Rattle.ep_model.specs.declared.step.Step.TheVariants.{Accept, Begin};

use ep_defs::{Config, Items, Rule, Units, Write};
use ep_model::Step;
use ep_plan::print_step;
use std::alloc::{AllocError, Global};

fn show_line(alloc: Global) -> Result<Vec<u8>, AllocError> {
    let show = Step::Show {
        thread: 12,
        session: 3,
    };
    print_step(alloc, &show)
}

// Event 7 is written by thread 0 at the last stamp.
fn begin(
    alloc: Global,
    related: [u8; 16],
    frames: &[u64],
    payload: &[u8],
) -> Result<Step, AllocError>
    ensures { IfOk result (λ step. step ≡ Begin 0 18446744073709551615 (record {
      event = 7;
      activity = replicate 16 0;
      related = related;
      frames = frames.now;
      payload = payload.now;
    })) }
{
    let frames = Items::new(frames.to_vec(alloc)?);
    let payload = Items::new(payload.to_vec(alloc)?);
    let write = Write {
        event: 7,
        activity: [0; 16],
        related,
        frames,
        payload,
    };
    Ok(Step::Begin {
        thread: 0,
        stamp: u64::MAX,
        write,
    })
}

fn line_without_words(alloc: Global) -> Result<Vec<u8>, AllocError> {
    print_step(alloc, &begin(alloc, [0; 16], &[], &[])?)
}

fn line_with_an_id(alloc: Global) -> Result<Vec<u8>, AllocError> {
    let id = [0, 1, 2, 3, 4, 5, 6, 7, 8, 9, 10, 11, 12, 13, 14, 255];
    print_step(alloc, &begin(alloc, id, &[0xa], &[0, 171])?)
}

fn line_of_frames(alloc: Global) -> Result<Vec<u8>, AllocError> {
    print_step(alloc, &begin(alloc, [0; 16], &[0xab, 0, 1], &[])?)
}

fn line_of_numbers(alloc: Global) -> Result<Vec<u8>, AllocError> {
    print_step(
        alloc,
        &begin(alloc, [0; 16], &[0, 0xabcdef, u64::MAX], &[])?,
    )
}

fn name(alloc: Global) -> Result<Units, AllocError>
    ensures { IfOk result (λ name. name ≡ 77 ∷ 121 ∷ 45 ∷ 80 ∷ []) }
{
    Ok(Items::new(Vec::from_array(alloc, [77, 121, 45, 80])?))
}

fn accept(alloc: Global, stackwalk: bool, rundown: bool) -> Result<Step, AllocError>
    ensures { IfOk result (λ step. step ≡ Accept 1 (record {
      rules = record { name = 77 ∷ 121 ∷ 45 ∷ 80 ∷ []; keywords = 240; level = 5 } ∷ [];
      chunks = 16;
      stackwalk = stackwalk;
      rundown = rundown;
    })) }
{
    let rule = Rule {
        name: name(alloc)?,
        keywords: 0xf0,
        level: 5,
    };
    let config = Config {
        rules: Items::new(Vec::from_array(alloc, [rule])?),
        chunks: 16,
        stackwalk,
        rundown,
    };
    Ok(Step::Accept { session: 1, config })
}

fn line_of_a_rule(alloc: Global) -> Result<Vec<u8>, AllocError> {
    print_step(alloc, &accept(alloc, true, false)?)
}

fn line_with_a_rundown(alloc: Global) -> Result<Vec<u8>, AllocError> {
    print_step(alloc, &accept(alloc, true, true)?)
}

fn line_without_stacks(alloc: Global) -> Result<Vec<u8>, AllocError> {
    print_step(alloc, &accept(alloc, false, true)?)
}

// Whether a step is printed so.
fn is(line: Result<Vec<u8>, AllocError>, text: &[u8]) -> bool {
    match line {
        Ok(line) => line.as_slice() == text,
        Err(_) => false,
    }
}

#[test]
fn a_step_is_printed_as_one_line(rt: HostRuntime) {
    let alloc = rt.alloc();
    let printed = [
        is(show_line(alloc), b"show 12 3"),
        is(
            line_without_words(alloc),
            b"begin 0 18446744073709551615 7 - - - -",
        ),
        is(
            line_with_an_id(alloc),
            b"begin 0 18446744073709551615 7 - 000102030405060708090a0b0c0d0eff a 00ab",
        ),
        is(
            line_of_frames(alloc),
            b"begin 0 18446744073709551615 7 - - ab,0,1 -",
        ),
        is(
            line_of_numbers(alloc),
            b"begin 0 18446744073709551615 7 - - 0,abcdef,ffffffffffffffff -",
        ),
        is(line_of_a_rule(alloc), b"accept 1 16 My-P:f0:5"),
        is(line_with_a_rundown(alloc), b"accept4 1 16 1 1 My-P:f0:5"),
        is(line_without_stacks(alloc), b"accept4 1 16 0 1 My-P:f0:5"),
    ];
    assert_eq!(rt; printed, [true; 8]);
}
