// Whether a text of a string needs no escape, by blocks of bytes.
ghost use Rattle.std.specs.Prelude.{◌≡◌, ◌+◌, ◌≤◌, length, flat_map};
ghost use Rattle.std.specs.Bool.{OnTrue};
ghost use Rattle.json.specs.Written.{PlainBetween};
ghost use Rattle.mx_canon.specs.Canonical.{escaped};

use std::simd::prelude::*;

/// How many bytes are looked at together.
pub const BLOCK: usize = 16;

/// Whether the text stands in canonical JSON as it is, where it has a block at least.
pub fn is_plain(text: &[u8]) -> bool
    requires { BLOCK ≤ length text.now }
    ensures { OnTrue result (flat_map escaped text.now ≡ text.now) }
{
    has_plain_blocks(text)
}

// The last block may overlap the one before it.
fn has_plain_blocks(text: &[u8]) -> bool
    requires { BLOCK ≤ length text.now }
    ensures { OnTrue result (PlainBetween text.now 0 (length text.now)) }
{
    let mut at = 0;
    while text.len() - at > BLOCK {
        if !is_plain_block(text, at) {
            return false;
        }
        at += BLOCK;
    }
    is_plain_block(text, text.len() - BLOCK)
}

fn is_plain_block(text: &[u8], at: usize) -> bool
    requires { at + BLOCK ≤ length text.now }
    ensures { OnTrue result (PlainBetween text.now at (at + BLOCK)) }
{
    let block = u8x16::from_slice(&text[at..]);
    (block.simd_eq(u8x16::splat(b'"'))
        | block.simd_eq(u8x16::splat(b'\\'))
        | block.simd_lt(u8x16::splat(32))).to_bitmask()
        == 0
}
