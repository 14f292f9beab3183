// The 15 fields of a sheet, and the words that carry them.
ghost use Rattle.std.specs.Prelude.{◌≡◌, ℕ, ◌*◌, ◌<◌, slice_index};
ghost use Rattle.base.specs.Words.{word_at};
ghost use Rattle.maps.specs.Inputs.{pole_lat, pole_lon, degrees_from, route_from, factors_from, pole_from, inputs_from, words_to, field_words, word_of_sheet};

use base::angle::Degrees;
use base::number::{bits32, float32};
use base::words::word;

// Transmitter and receiver, and whether the path goes the long way round: 0 is the short way.
#[derive(Clone, Copy)]
pub struct Route {
    pub tlat: Degrees,
    pub tlong: Degrees,
    pub rlat: Degrees,
    pub rlong: Degrees,
    pub long_path: u32,
}

// `psc`, what the critical frequencies of the layers are multiplied with.
#[derive(Clone, Copy)]
pub struct Factors {
    pub e: f32,
    pub f1: f32,
    pub f2: f32,
    pub es: f32,
}

// The geomagnetic north pole.
#[derive(Clone, Copy)]
pub struct MagneticPole {
    pub lat: Degrees,
    pub lon: Degrees,
}

impl MagneticPole {
    // The built-in pole: 78.5 degrees north, 69 degrees west.
    pub fn built_in() -> MagneticPole
        ensures latitude { result.lat.0 ≡ pole_lat }
        ensures longitude { result.lon.0 ≡ pole_lon }
    {
        MagneticPole {
            lat: Degrees(78.5),
            lon: Degrees(-69.0),
        }
    }
}

// The month, the flag and the model are any words, and no enums: `from_words` makes inputs of any
// 15 words, and what is out of range is refused later.
#[derive(Clone, Copy)]
pub struct Inputs {
    pub month: u32,
    // The sunspot number.
    pub ssn: f32,
    // The hour, GMT.
    pub gmt: f32,
    pub route: Route,
    pub psc: Factors,
    pub pole: MagneticPole,
    // The F2 model: 0 is CCIR, 1 is URSI.
    pub model: u32,
}

pub const FIELDS: usize = 15;

// The bytes of their words.
pub const FIELD_BYTES: usize = 4 * FIELDS;

// The fields that a sheet over an F2 record and a month file has: all but the model.
pub const SHEET_FIELDS: usize = 14;

pub const SHEET_BYTES: usize = 4 * SHEET_FIELDS;

// The words of the fields: month, flag and model are whole numbers, the others the bits of an
// `f32`. `from_words` and `to_words` are no `From`: they are public, and docs/CONTRACTS.md names
// them.
pub type FieldWords = [u32; FIELDS];

fn degrees_in(words: &FieldWords, k: usize) -> Degrees
    requires { k < 15 }
    ensures { result ≡ degrees_from (λ (n : ℕ). slice_index words.now n) k }
{
    Degrees(float32(words[k]))
}

fn route_in(words: &FieldWords) -> Route
    ensures { result ≡ route_from (λ (n : ℕ). slice_index words.now n) }
{
    Route {
        tlat: degrees_in(words, 3),
        tlong: degrees_in(words, 4),
        rlat: degrees_in(words, 5),
        rlong: degrees_in(words, 6),
        long_path: words[7],
    }
}

fn factors_in(words: &FieldWords) -> Factors
    ensures { result ≡ factors_from (λ (n : ℕ). slice_index words.now n) }
{
    Factors {
        e: float32(words[8]),
        f1: float32(words[9]),
        f2: float32(words[10]),
        es: float32(words[11]),
    }
}

fn pole_in(words: &FieldWords) -> MagneticPole
    ensures { result ≡ pole_from (λ (n : ℕ). slice_index words.now n) }
{
    MagneticPole {
        lat: degrees_in(words, 12),
        lon: degrees_in(words, 13),
    }
}

// The inputs whose 15 fields the words are, in the documents' order; any 15 words are some.
pub fn from_words(words: &FieldWords) -> Inputs
    ensures { result ≡ inputs_from (λ (k : ℕ). slice_index words.now k) }
{
    Inputs {
        month: words[0],
        ssn: float32(words[1]),
        gmt: float32(words[2]),
        route: route_in(words),
        psc: factors_in(words),
        pole: pole_in(words),
        model: words[14],
    }
}

// The first 15 words of some bytes.
fn words_in(s: &[u8]) -> FieldWords
    ensures { result ≡ words_to (λ (k : ℕ). word_at s.now (4 * k)) }
{
    // One by one: of `array::from_fn` a proof does not learn that its closure stays as it is.
    [
        word(s, 0),
        word(s, 4),
        word(s, 8),
        word(s, 12),
        word(s, 16),
        word(s, 20),
        word(s, 24),
        word(s, 28),
        word(s, 32),
        word(s, 36),
        word(s, 40),
        word(s, 44),
        word(s, 48),
        word(s, 52),
        word(s, 56),
    ]
}

// The inputs whose 15 fields are the little-endian words of the bytes; a byte that is not there
// counts as 0.
pub fn inputs_in(s: &[u8]) -> Inputs
    ensures { result ≡ inputs_from (λ (k : ℕ). word_at s.now (4 * k)) }
{
    let words = words_in(s);
    from_words(&words)
}

// The inputs whose first 14 fields are the little-endian words of the bytes, with model 0: a 15th
// word does not count. A byte that is not there counts as 0.
pub fn sheet_inputs_in(s: &[u8]) -> Inputs
    ensures { result ≡ inputs_from (word_of_sheet s.now) }
{
    let mut words = words_in(s);
    words[SHEET_FIELDS] = 0;
    from_words(&words)
}

// The 15 words of the inputs' fields, in the documents' order; any NaN is 7fc00000.
pub fn to_words(i: Inputs) -> FieldWords
    ensures { result ≡ field_words i }
{
    [
        i.month,
        bits32(i.ssn),
        bits32(i.gmt),
        bits32(i.route.tlat.0),
        bits32(i.route.tlong.0),
        bits32(i.route.rlat.0),
        bits32(i.route.rlong.0),
        i.route.long_path,
        bits32(i.psc.e),
        bits32(i.psc.f1),
        bits32(i.psc.f2),
        bits32(i.psc.es),
        bits32(i.pole.lat.0),
        bits32(i.pole.lon.0),
        i.model,
    ]
}
