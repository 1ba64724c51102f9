// Fields and lists at concrete places, against words that are written out.

ghost use Rattle.std.specs.Prelude.{List, length, ℕ, ◌<◌};

use std::alloc::AllocError;
use std::process::Abort;
use std::rt::HostRuntime;
use word_fields::{Field, Words, fields};

type Lowest = Field<0, 1>;

type Low = Field<0, 32>;

type Middle = Field<32, 6>;

type High = Field<38, 26>;

type Highest = Field<63, 1>;

type Whole = Field<0, 64>;

#[test]
fn a_field_is_read(rt: HostRuntime) {
    let word = 0xfedc_ba98_7654_3210;
    assert_eq!(rt; Lowest::get(word), 0);
    assert_eq!(rt; Low::get(word), 0x7654_3210);
    assert_eq!(rt; Middle::get(word), 0x18);
    assert_eq!(rt; High::get(word), 0x3fb_72ea);
    assert_eq!(rt; Highest::get(word), 1);
    assert_eq!(rt; Whole::get(word), word);
}

#[test]
fn a_field_is_set_and_its_neighbours_stay(rt: HostRuntime) {
    assert_eq!(rt; Middle::set(u64::MAX, 0), 0xffff_ffc0_ffff_ffff);
    assert_eq!(rt; Middle::set(0, 63), 0x0000_003f_0000_0000);
    assert_eq!(rt; Lowest::set(6, 1), 7);
    assert_eq!(rt; Highest::set(u64::MAX, 0), u64::MAX >> 1);
    assert_eq!(rt; Whole::set(7, 9), 9);
}

#[test]
fn fields_are_set_one_after_another(rt: HostRuntime) {
    assert_eq!(rt;
        fields!(0, Low = 7, Middle = 5, High = 1),
        0x0000_0045_0000_0007
    );
    assert_eq!(rt; fields!(u64::MAX, Low = 0, High = 0), 0x0000_003f_0000_0000);
    assert_eq!(rt; fields!(8), 8);
}

/// The sum of the first two words of a list that has at least two.
fn both<W: Words>(words: &mut W) -> u64
    requires { (list : List ℕ) → W.may_be words.old list → 1 < length list }
{
    let first = words.word(0);
    let second = words.word(1);
    first ^ second
}

#[test]
fn a_vector_is_its_own_list(rt: HostRuntime) -> Result<(), AllocError> {
    let mut words = Vec::from_array(rt.alloc(), [6, 3, 9])?;
    assert_eq!(rt; both(&mut words), 5);
    Ok(())
}
