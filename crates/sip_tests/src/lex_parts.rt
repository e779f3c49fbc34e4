//! The functions of `sip_lex` on parameters, texts in pieces, and places in a text, on their happy path.
use crate::bytes::{has, is};
use crate::holds::holds;
use sip_lex::{
    PartPlace, are_printed, begins_with_space, copy_with_room, is_param_named, length_number,
    param_name, param_parts, param_value, part_at, part_within, pieces_len, place_at_end,
    skip_line_ends,
};
use std::alloc::Global;

#[test]
fn knows_what_stands_first(rt: HostRuntime) {
    holds(&rt, begins_with_space(b"\ta"), "a tab stands first");
    holds(&rt, !begins_with_space(b"a "), "no space stands first");
    holds(&rt, are_printed(b"sip:!~"), "printed bytes");
    holds(&rt, !are_printed(b"a b"), "a space is not printed");
    holds(
        &rt,
        is(skip_line_ends(b"\r\n\r\na\r\n"), b"a\r\n"),
        "the ends of lines in front go",
    );
    holds(&rt, length_number(b"000000142") == Some(142), "nine digits");
    holds(&rt, length_number(b"0000000142").is_none(), "ten digits");
}

#[test]
fn reads_a_parameter(rt: HostRuntime) {
    let param = b" Tag = a b ";
    holds(&rt, is(param_name(param), b"Tag"), "the name");
    holds(&rt, has(param_value(param), b"a b"), "the value");
    holds(&rt, is_param_named(param, b"tag"), "the name in any case");
    let (name, value) = param_parts(param);
    holds(&rt, is(name, b"Tag") && has(value, b"a b"), "both");
    holds(&rt, param_value(b"lr").is_none(), "no value");
}

/// Whether a copy with room is the text, and has that much room behind it.
fn has_room(alloc: Global, text: &[u8], room: usize) -> bool {
    match copy_with_room(&alloc, text, room) {
        Ok(copy) => is(&copy, text) && copy.capacity().saturating_sub(text.len()) >= room,
        Err(_) => false,
    }
}

#[test]
fn has_pieces_and_room(rt: HostRuntime) {
    holds(&rt, pieces_len(&[b"To", b": ", b"a"]) == 5, "five bytes");
    holds(&rt, has_room(rt.alloc(), b"abc", 4), "a copy with room");
}

/// Whether this stands behind the ends of lines in front of a text.
fn begins_behind(text: &[u8], wanted: &[u8]) -> bool {
    let end = skip_line_ends(text);
    wanted.len() <= end.len() && is(part_at(text, place_at_end(text, end, wanted.len())), wanted)
}

/// Where the middle of `a b c` stands.
const MIDDLE: PartPlace = PartPlace { start: 2, len: 1 };

#[test]
fn finds_parts_by_places(rt: HostRuntime) {
    let text = b"a b c";
    holds(&rt, is(part_at(text, MIDDLE), b"b"), "the part");
    holds(&rt, is(part_within(text, MIDDLE), b"b"), "the same");
    let behind = MIDDLE.moved(2);
    holds(&rt, is(part_at(text, behind), b"c"), "a place moved");
    let whole = PartPlace { start: 0, len: 5 };
    let two = whole.part(3, 9);
    holds(&rt, is(part_at(text, two), b" c"), "a part of a part");
    holds(&rt, begins_behind(b"\r\na b c", b"a b"), "the end");
}
