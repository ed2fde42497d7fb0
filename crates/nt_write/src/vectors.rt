//! What small streams and their parts are as bytes, computed by the prover and worked out by hand.
ghost use Rattle.std.specs.Prelude.{◌≡◌, true, List, Ok, [], ◌∷◌, ◌++◌, length};
ghost use Rattle.std.specs.Int.{w32, w64};
ghost use Rattle.ep_defs.specs.Session.{standard_info_of};
ghost use Rattle.ep_defs.specs.declared.item.ItemKind.TheVariants as item;
ghost use Rattle.nt_object.specs.declared.object.BlockKind.TheVariants as block;
ghost use Rattle.pt_num.specs.Numbers.{short_var};
ghost use Rattle.nt_object.specs.Stream.{stream_start};
ghost use Rattle.nt_head.specs.Head.{zero_state};
ghost use Rattle.nt_meta.specs.Meta.{meta_payload};
ghost use Rattle.nt_head.specs.Fewest.{head_bytes};
ghost use Rattle.nt_blocks.specs.Drafts.{blob_body};
ghost use Rattle.nt_blocks.specs.Refusals.{body_at};
ghost use Rattle.ep_rundown.specs.Rundown.{with_section};
ghost use Rattle.nt_write.specs.Canonical.{encoded};
ghost use Rattle.nt_write.specs.Vectors.{none_written, one_written, start_bytes, none_written_bytes, one_written_bytes, one_described_bytes, bodies_of, two_threads, two_threads_bytes, one_stack, one_stack_bytes, before_point_bytes, after_point_bytes, nth, many_drafts, some_id, first_of_thread_2, nested, nested_bytes, zero_id, longer_header_bytes};

/// The head of a stream and its Trace object.
pub fn the_start_takes_102_bytes()
    ensures bytes { stream_start (standard_info_of 1 1) ≡ start_bytes }
    ensures count { length start_bytes ≡ 102 }
{}

/// A session that is opened and closed: the start, and a point that knows the thread and no event of it.
pub fn a_session_without_events_takes_158_bytes()
    ensures bytes { encoded (standard_info_of 1 1) none_written ≡ start_bytes ++ none_written_bytes }
    ensures count { length (start_bytes ++ none_written_bytes) ≡ 158 }
{}

/// A session with one event: the start, its definition, the event, and a point that knows of it.
pub fn one_event_takes_310_bytes()
    ensures bytes { encoded (standard_info_of 1 1) one_written ≡ start_bytes ++ one_written_bytes }
    ensures count { length (start_bytes ++ one_written_bytes) ≡ 310 }
{}

/// A session with one event and a rundown: the start, both definitions, the event, what describes its definition, and a
/// point that knows of both.
pub fn one_event_and_its_description_take_462_bytes()
    ensures bytes { encoded (standard_info_of 1 1) (with_section true one_written)
        ≡ start_bytes ++ one_described_bytes }
    ensures count { length (start_bytes ++ one_described_bytes) ≡ 462 }
{}

/// A varuint has seven bits in each byte, the low ones first.
pub fn varuints_have_their_low_bits_first()
    ensures one_byte { short_var w32 127 ≡ 0x7f ∷ [] }
    ensures two_bytes { short_var w32 128 ≡ 0x80 ∷ 0x01 ∷ [] }
    ensures a_long_payload { short_var w32 60000 ≡ 0xe0 ∷ 0xd4 ∷ 0x03 ∷ [] }
    ensures below_zero { short_var w32 4294967291 ≡ 0xfb ∷ 0xff ∷ 0xff ∷ 0xff ∷ 0x0f ∷ [] }
    ensures greatest { short_var w64 18446744073709551615
        ≡ 0xff ∷ 0xff ∷ 0xff ∷ 0xff ∷ 0xff ∷ 0xff ∷ 0xff ∷ 0xff ∷ 0xff ∷ 0x01 ∷ [] }
{}

/// The header of a block's first event says its definition, its thread and its stamp.
pub fn a_first_event_takes_seven_bytes()
    ensures bytes { head_bytes zero_state (nth 1) ≡ 0x07 ∷ 0x01 ∷ 0x00 ∷ 0x01 ∷ 0x00 ∷ 0x01 ∷ 0x0a ∷ [] }
{}

/// What the next event of a thread shares with the one before it is left out.
pub fn a_second_event_takes_two_bytes()
    ensures bytes { head_bytes (nth 1) (nth 2) ≡ 0x00 ∷ 0x01 ∷ [] }
{}

/// An activity's id stands whole where it is new, and so does a related one.
pub fn a_new_activity_takes_16_bytes()
    ensures activity { head_bytes (nth 1) (record (nth 2) { activity = some_id }) ≡ 0x10 ∷ 0x01 ∷ some_id }
    ensures related { head_bytes (nth 1) (record (nth 2) { activity = some_id; related = some_id })
        ≡ 0x30 ∷ 0x01 ∷ (some_id ++ some_id) }
{}

/// A number that is missing before an event shows in its header.
pub fn a_missing_number_takes_three_bytes_more()
    ensures bytes { head_bytes (nth 1) (nth 3) ≡ 0x02 ∷ 0x01 ∷ 0x01 ∷ 0x00 ∷ 0x02 ∷ [] }
{}

/// Of 964 events in one body, the last one after a missing number: 20 bytes, 7, 962 times 2, and 5.
pub fn a_body_of_964_events_takes_1956_bytes()
    ensures count { length (blob_body many_drafts) ≡ 1956 }
{}

/// After the fifth event of one thread, the number of another's first event is five less than the next one, modulo
/// 2^32.
pub fn five_events_of_one_thread_and_one_of_another()
    ensures head { head_bytes (nth 5) first_of_thread_2
        ≡ 0x06 ∷ 0xfb ∷ 0xff ∷ 0xff ∷ 0xff ∷ 0x0f ∷ 0x02 ∷ 0x00 ∷ 0x02 ∷ 0x06 ∷ [] }
    ensures body { bodies_of block.Event two_threads ≡ two_threads_bytes ∷ [] }
{}

/// A point forgets the stacks, so that a stack is written again under the first id.
pub fn a_stack_is_written_again_after_a_point()
    ensures stacks { bodies_of block.Stack one_stack ≡ one_stack_bytes ∷ one_stack_bytes ∷ [] }
    ensures events { bodies_of block.Event one_stack ≡ before_point_bytes ∷ after_point_bytes ∷ [] }
{}

/// A field's name stands after the fields inside it.
pub fn nested_fields_stand_before_the_name()
    ensures bytes { meta_payload 7 nested ≡ nested_bytes }
{}

/// A reader passes over what a body's header has after its first 20 bytes, and takes a number that is not in its
/// shortest form.
pub fn a_header_of_22_bytes_is_passed_over()
    ensures { body_at block.Event 100 longer_header_bytes
        ≡ Ok (record { at = 122; kind = item.Event 1 1 1 0 1 0 100 zero_id zero_id [] } ∷ []) }
{}
