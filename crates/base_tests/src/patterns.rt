// Codes and patterns of keys that are written out. The codes are another program's, which gives the published values of
// FNV-1a for the texts `a` and `foobar`.

use call_patterns::{Key, Keys, Pattern, Position, code, pattern_of};
use prolog_terms::{Names, Want, Whole};
use std::alloc::Global;
use std::process::Abort;
use std::rt::HostRuntime;

/// The code of an integer.
fn integer(alloc: Global, value: Whole) -> u64 {
    code(&Key::Int(value), &Names::new(alloc))
}

/// The code of an atom, whose text is the second one that is numbered.
fn atom(alloc: Global, text: &[u8]) -> Result<u64, Want> {
    let mut names = Names::new(alloc);
    names.intern(b"before")?;
    let number = names.intern(text)?;
    Ok(code(&Key::Atom(number), &names))
}

/// The code of a compound.
fn functor(alloc: Global, text: &[u8], arity: u32) -> Result<u64, Want> {
    let mut names = Names::new(alloc);
    let number = names.intern(text)?;
    Ok(code(&Key::Functor(number, arity), &names))
}

#[test]
fn integers_have_codes(rt: HostRuntime) {
    assert_eq!(rt; integer(rt.alloc(), 0), 0xc882_2f2e_5b8a_6904);
    assert_eq!(rt; integer(rt.alloc(), 1), 0xe77c_f637_6679_b325);
    assert_eq!(rt; integer(rt.alloc(), -1), 0xdc79_fdc3_dcfe_237c);
    assert_eq!(rt; integer(rt.alloc(), Whole::MIN), 0xc881_af2e_5b89_8f84);
    assert_eq!(rt; integer(rt.alloc(), Whole::MAX), 0xdc79_7dc3_dcfd_49fc);
}

#[test]
fn names_have_codes(rt: HostRuntime) -> Result<(), Want> {
    assert_eq!(rt; atom(rt.alloc(), b"")?, 0xaf63_fc4c_8602_22ec);
    assert_eq!(rt; atom(rt.alloc(), b"foo")?, 0x5981_f18a_f2fc_b1e4);
    assert_eq!(rt; functor(rt.alloc(), b"foo", 1)?, 0xa17a_7d1b_e3a9_0750);
    assert_eq!(rt; functor(rt.alloc(), b"foo", 2)?, 0x557a_3f33_aaf5_0743);
    assert_eq!(rt; functor(rt.alloc(), b"point", 255)?, 0xb23b_4102_a83b_7d64);
    Ok(())
}

/// Keys at these positions alone.
fn keys_at(positions: &[u8]) -> Keys {
    let mut at = [None; 40];
    for position in positions {
        if let Some(slot) = at.get_mut(*position as usize) {
            *slot = Some(Key::Int(7));
        }
    }
    Keys { at }
}

fn pattern(count: u8, first: u8, second: u8, third: u8) -> Pattern {
    Pattern {
        count,
        at: [Position(first), Position(second), Position(third)],
    }
}

#[test]
fn calls_have_patterns(rt: HostRuntime) {
    assert_eq!(rt; pattern_of(&keys_at(&[])), pattern(0, 0, 0, 0));
    assert_eq!(rt; pattern_of(&keys_at(&[0])), pattern(1, 0, 0, 0));
    assert_eq!(rt; pattern_of(&keys_at(&[1, 2, 39])), pattern(0, 0, 0, 0));
    assert_eq!(rt; pattern_of(&keys_at(&[35, 36, 5])), pattern(2, 5, 35, 0));
    assert_eq!(rt;
        pattern_of(&keys_at(&[5, 0, 30, 10, 35])),
        pattern(3, 0, 5, 10)
    );
}
