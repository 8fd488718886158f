//! Texts with their first faults, and a tree with its spans. The expected values are worked out by hand.
use crate::{Source, TextRefusal, Tree, read};
use std::alloc::{AllocError, Global};
use std::process::Abort;
use std::test::Fail;

/// The kind and the place of the first fault.
fn first_fault(rt: &impl Abort, alloc: Global, text: &[u8]) -> Result<Option<(u8, u32)>, Fail> {
    assert!(rt; text.len() <= 67108864);
    match read(alloc, Source::Problem, text) {
        Err(TextRefusal::Fault(fault)) => Ok(Some((fault.kind, fault.place))),
        other => {
            let _tree = other?;
            Ok(None)
        }
    }
}

#[test]
fn each_text_has_its_first_fault(rt: HostRuntime) -> Result<(), Fail> {
    let good: [&[u8]; 14] = [
        b"()",
        b" ( ) ",
        b"(a)",
        b"(A bC)",
        b"(a\tb\r\nc)",
        b"(!\"#'~)",
        b"(((a) b) () c)",
        b"(a) ; a comment without a line feed",
        b"; first\n(a) ; last\n",
        b"(a;)\n)",
        b"(a);)\n",
        b"(a;\x00\xff)\n)",
        b"(a ; x\r)\n)",
        b"(;;;\n)",
    ];
    for text in good {
        assert_eq!(rt; first_fault(&rt, rt.alloc(), text)?, None, "{text:?}");
    }
    let bad: [(&[u8], u8, u32); 26] = [
        (b"", 2, 0),
        (b"   ", 2, 3),
        (b"; no list", 2, 9),
        (b")", 2, 0),
        (b"a", 2, 0),
        (b" ab", 2, 1),
        (b"a (b)", 2, 0),
        (b"()()", 2, 2),
        (b"() a", 2, 3),
        (b"(a) b c", 2, 4),
        (b"(a)b", 2, 3),
        (b"(", 2, 1),
        (b"(()", 2, 3),
        (b"(a ", 2, 3),
        (b"())", 2, 2),
        (b"(a))(", 2, 3),
        (b"(a;)", 2, 4),
        (b"(a ; x\r)", 2, 8),
        (b"(a);)\n)", 2, 6),
        (b"(define (domain d\x07))", 1, 17),
        (b"(a\x0b)", 1, 2),
        (b"(a \x7f)", 1, 3),
        (b"(;\xff\n\xff)", 1, 4),
        (b")\x80", 1, 1),
        (b"() a \x01 \x02", 1, 5),
        (b"(\x00", 1, 1),
    ];
    for (text, kind, place) in bad {
        assert_eq!(rt;
            first_fault(&rt, rt.alloc(), text)?,
            Some((kind, place)),
            "{text:?}"
        );
    }
    Ok(())
}

#[test]
fn two_hundred_lists_may_be_open(rt: HostRuntime) -> Result<(), Fail> {
    let rows = [
        (200, 200, None),
        (200, 0, Some((2, 200))),
        (201, 201, Some((3, 200))),
        (300, 0, Some((3, 200))),
    ];
    for (opened, closed, fault) in rows {
        let mut text = vec![in rt.alloc(); b'('; opened]?;
        text.extend_from_slice(&vec![in rt.alloc(); b')'; closed]?)?;
        assert_eq!(rt;
            first_fault(&rt, rt.alloc(), &text)?,
            fault,
            "{opened} and {closed}"
        );
    }
    Ok(())
}

/// Each span, with the word or the items.
fn show(out: &mut String, tree: &Tree) -> Result<(), AllocError> {
    let (start, end) = (tree.start(), tree.end());
    match tree {
        Tree::Word { text, .. } => {
            let word = text.as_str();
            write!(out, " {start}..{end} {word}")?;
        }
        Tree::List { items, .. } => {
            write!(out, " {start}..{end}(")?;
            for item in items.as_slice() {
                show(out, item)?;
            }
            out.push(')')?;
        }
    }
    Ok(())
}

#[test]
fn a_tree_has_its_spans_and_its_words_in_lower_case(rt: HostRuntime) -> Result<(), Fail> {
    let tree = read(rt.alloc(), Source::Domain, b"(Define (p ?X) ; c\n Q)")?;
    let mut shown = String::new(rt.alloc());
    show(&mut shown, &tree)?;
    assert_eq!(rt;
        shown.as_str(),
        " 0..22( 1..7 define 8..14( 9..10 p 11..13 ?x) 20..21 q)"
    );
    Ok(())
}
