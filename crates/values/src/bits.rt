// Floats and their bits: NaNs stay bit patterns.
ghost use Rattle.std.specs.Prelude.{◌≡◌, Bool, false};
ghost use Rattle.std.specs.Float.{binary32, binary64};
ghost use Rattle.std.specs.Float.Ieee.{nan_bits, of_bits, to_bits};
ghost use Rattle.values.specs.Value.{binary_bits, binary_of};

use crate::value::Binary;
use std::num::{f32_to_bits_with_nan, f64_to_bits_with_nan};

// What floats of 32 and of 64 bits differ in.
pub(crate) trait Float: Copy {
    type Bits: Copy;

    ghost nan: { Self.Bits → Bool };

    ghost number: { Self.Bits → Self };

    ghost pattern: { Self → Self.Bits };

    fn is_nan(bits: Self::Bits) -> bool
        ensures { result ≡ nan bits };

    fn from_pattern(bits: Self::Bits) -> Self
        requires { nan bits ≡ false }
        ensures { result ≡ number bits };

    // A NaN that is held as a number has no pattern of its own: the quiet one without a payload.
    fn to_pattern(self) -> Self::Bits
        ensures { result ≡ pattern self };
}

impl Float for f32 {
    type Bits = u32;

    ghost nan = { nan_bits binary32 };

    ghost number = { of_bits binary32 };

    ghost pattern = { to_bits binary32 };

    // Without the sign's bit a NaN's pattern is above the infinity's.
    #[tactic(auto, using(crate::proofs::Laws::Float::nan_tests))]
    fn is_nan(bits: u32) -> bool {
        0x7F80_0000 < bits % 0x8000_0000
    }

    fn from_pattern(bits: u32) -> f32 {
        f32::from_bits(bits)
    }

    fn to_pattern(self) -> u32 {
        f32_to_bits_with_nan(self)
    }
}

impl Float for f64 {
    type Bits = u64;

    ghost nan = { nan_bits binary64 };

    ghost number = { of_bits binary64 };

    ghost pattern = { to_bits binary64 };

    #[tactic(auto, using(crate::proofs::Laws::Float::nan_tests))]
    fn is_nan(bits: u64) -> bool {
        0x7FF0_0000_0000_0000 < bits % 0x8000_0000_0000_0000
    }

    fn from_pattern(bits: u64) -> f64 {
        f64::from_bits(bits)
    }

    fn to_pattern(self) -> u64 {
        f64_to_bits_with_nan(self)
    }
}

#[tactic(auto, unfolding(crate::specs::Value::binary_of))]
pub(crate) fn binary_of<F: Float>(bits: F::Bits) -> Binary<F, F::Bits>
    ensures { result ≡ binary_of F.nan F.number bits }
{
    if F::is_nan(bits) {
        return Binary::Nan(bits);
    }
    Binary::Number(F::from_pattern(bits))
}

#[tactic(auto, unfolding(crate::specs::Value::binary_bits))]
pub(crate) fn binary_bits<F: Float>(x: Binary<F, F::Bits>) -> F::Bits
    ensures { result ≡ binary_bits F.pattern x }
{
    match x {
        Binary::Number(number) => number.to_pattern(),
        Binary::Nan(bits) => bits,
    }
}
