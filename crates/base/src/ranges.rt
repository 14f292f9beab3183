// The ranges of fields, of documents 01 and 02, that more than one call is held to.
ghost use Rattle.std.specs.Prelude.{◌≡◌};
ghost use Rattle.base.specs.Ranges.{is_month, month_check, is_bit, model_check, is_to, hour_check, latitude_check, longitude_check};

use crate::angle::Degrees;
use crate::refusal::{Refusal, Verdict, refuse_unless};

pub(crate) fn is_month(m: u32) -> bool
    ensures { result ≡ is_month m }
{
    (1..=12).contains(&m)
}

// The verdict on a month: 1, place 1, unless it is from 1 to 12.
pub fn month_check(m: u32) -> Verdict
    ensures { result ≡ month_check m }
{
    refuse_unless(is_month(m), Refusal::Month)
}

// Whether a word is 0 or 1.
pub fn is_bit(w: u32) -> bool
    ensures { result ≡ is_bit w }
{
    w <= 1
}

// The verdict on an F2 model's word: 7, place 15, unless it is 0 (CCIR) or 1 (URSI).
pub fn model_check(m: u32) -> Verdict
    ensures { result ≡ model_check m }
{
    refuse_unless(is_bit(m), Refusal::Model)
}

// Whether x is from low to high, ends included; a NaN is outside.
pub fn is_to(low: f32, high: f32, x: f32) -> bool
    ensures { result ≡ is_to low high x }
{
    low <= x && x <= high
}

// The verdict on an hour: 3, place 3, unless it is from 0 to 24; a NaN is outside.
pub fn hour_check(x: f32) -> Verdict
    ensures { result ≡ hour_check x }
{
    refuse_unless(is_to(0.0, 24.0, x), Refusal::Hour)
}

// The verdict on a latitude in degrees: 4 with the field's number as its place, unless it is from
// -90 to 90; a NaN is outside.
pub fn latitude_check(field: u32, x: Degrees) -> Verdict
    ensures { result ≡ latitude_check field x }
{
    refuse_unless(is_to(-90.0, 90.0, x.0), Refusal::Latitude(field))
}

// The verdict on a longitude in degrees: 5 with the field's number as its place, unless it is from
// -180 to 180; a NaN is outside.
pub fn longitude_check(field: u32, x: Degrees) -> Verdict
    ensures { result ≡ longitude_check field x }
{
    refuse_unless(is_to(-180.0, 180.0, x.0), Refusal::Longitude(field))
}
