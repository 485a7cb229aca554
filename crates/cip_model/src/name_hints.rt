//! Names that stand one behind another in a list of bytes, and hints where a name may stand among them: a table of
//! numbers by the fingerprints of names. A hint says nothing until the name at its number was compared, so no contract
//! speaks of fingerprints, nor of the places of the table. A name whose number has over 17 bits has no hint. A hint has
//! 4 bytes, and the table no place yet, or as many as a power of two; a free place is 0.
ghost use Rattle.std.specs.Prelude.{◌≡◌, ◌<◌, Some, length, slice_get, IfSome};
ghost use Rattle.cip_model.specs.Keys.{pieces_from, start_from, AreRising};

use std::alloc::{AllocError, Global};

/// How many places of the table are looked at for a fingerprint.
const MOST_LOOKS: usize = 16;

/// The bits of a hint that have the number of a name and 1 more; the others are of the name's fingerprint.
const NUMBER: u32 = 0x1_FFFF;

/// Where the piece of this number starts: where the one before it ends.
fn start_of(ends: &[u32], number: usize) -> usize
    requires { number < length ends.now }
    ensures { result ≡ start_from 0 ends.now number }
{
    if number == 0 {
        0
    } else {
        ends[number - 1] as usize
    }
}

/// The piece of this number, of pieces that stand one behind another.
pub(crate) fn piece<'a>(bytes: &'a [u8], ends: &[u32], number: usize) -> &'a [u8]
    requires rising { AreRising 0 ends.now (length bytes.now) }
    requires there { number < length ends.now }
    ensures { slice_get (pieces_from 0 bytes.now ends.now) number ≡ Some result.now }
{
    let start = start_of(ends, number);
    let end = ends[number] as usize;
    &bytes[start..end]
}

/// The fingerprint of a name.
fn fingerprint(name: &[u8]) -> u64 {
    let mut print = 0xCBF2_9CE4_8422_2325u64;
    for byte in name {
        print = (print ^ u64::from(*byte)).wrapping_mul(0x0000_0100_0000_01B3);
    }
    print ^ (print >> 32)
}

/// The bits of a fingerprint that its hint has.
fn marked(print: u64) -> u32 {
    (print >> 32) as u32 & !NUMBER
}

/// The place that a look for a fingerprint goes to, in a table of this many places.
fn place_of(print: u64, look: usize, places: usize) -> usize
    requires { 0 < places }
    ensures { result < places }
{
    (print as usize).wrapping_add(look) & (places - 1)
}

/// Puts the hint of a name's number at the first free place that is looked at for it, or nowhere.
fn put_in(places: &mut [u32], print: u64, number: usize) {
    let count = places.len();
    if count == 0 || number >= NUMBER as usize {
        return;
    }
    for look in 0..MOST_LOOKS {
        let at = place_of(print, look, count);
        if places[at] == 0 {
            places[at] = marked(print) | (number as u32 + 1);
            return;
        }
    }
}

/// Puts a hint of a name that comes behind those that stand one behind another, each with its hint, into the table,
/// which grows by itself. `Err` comes where a growth was refused.
pub(crate) fn put_hint(
    alloc: Global,
    hints: &mut Vec<u32>,
    bytes: &[u8],
    ends: &[u32],
    name: &[u8],
) -> Result<(), AllocError>
    requires { AreRising 0 ends.now (length bytes.now) }
{
    let count = hints.len();
    if ends.len() >= count / 16 * 9 {
        let wider = if count == 0 { 16 } else { count * 2 };
        let mut places = vec![in alloc; 0u32; wider]?;
        for number in 0..ends.len() {
            let print = fingerprint(piece(bytes, ends, number));
            put_in(places.as_mut_slice(), print, number);
        }
        *hints = places;
    }
    put_in(hints.as_mut_slice(), fingerprint(name), ends.len());
    Ok(())
}

/// The number of a name, of names that stand one behind another, if the hints have it.
pub(crate) fn hinted(hints: &[u32], bytes: &[u8], ends: &[u32], name: &[u8]) -> Option<usize>
    requires { AreRising 0 ends.now (length bytes.now) }
    ensures { IfSome result (λ number. slice_get (pieces_from 0 bytes.now ends.now) number ≡ Some name.now) }
{
    let print = fingerprint(name);
    let count = hints.len();
    if count == 0 {
        return None;
    }
    for look in 0..MOST_LOOKS {
        let hint = hints[place_of(print, look, count)];
        if hint == 0 {
            return None;
        }
        let behind = (hint & NUMBER) as usize;
        if hint & !NUMBER != marked(print) || behind == 0 || behind > ends.len() {
            continue;
        }
        if piece(bytes, ends, behind - 1) == name {
            return Some(behind - 1);
        }
    }
    None
}
