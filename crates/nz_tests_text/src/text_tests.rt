//! The pieces of a small text, and the place of a byte.
use nz_text::{Span, TextFault, TextRefusal, place, tokens};
use std::alloc::Global;

// Whether the text is cut into these two pieces.
fn cuts(alloc: Global, text: &[u8], first: Span, second: Span) -> bool {
    match tokens(alloc, text) {
        Ok(spans) => spans.len() == 2 && *spans.at(0) == first && *spans.at(1) == second,
        Err(_) => false,
    }
}

fn refuses(alloc: Global, text: &[u8], at: usize, fault: TextFault) -> bool {
    tokens(alloc, text).err() == Some(TextRefusal::Bad { at, fault })
}

#[test]
fn pieces(rt: HostRuntime) {
    let first = Span { start: 0, end: 1 };
    let second = Span { start: 10, end: 11 };
    assert!(rt; cuts(rt.alloc(), b"a /* b */ c", first, second));
}

#[test]
fn faults(rt: HostRuntime) {
    for (text, at, fault) in [
        (b"-/x".as_slice(), 2, TextFault::OpenComment),
        (b"a /* */ /*/".as_slice(), 11, TextFault::OpenComment),
        (b"a\x80/".as_slice(), 1, TextFault::Byte),
    ] {
        assert!(rt; refuses(rt.alloc(), text, at, fault));
    }
}

#[test]
fn places(rt: HostRuntime) {
    assert!(rt; place(b"a\nbc", 3) == (2, 2));
}
