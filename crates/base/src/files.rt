// The record and the month file, lent as two or parts of a year file, as a whole: the checks before
// they are used, and the arrays that a sheet reads from them. A refusal leaves the arrays as they
// are.
ghost use Rattle.std.specs.Prelude.{◌≡◌};
ghost use Rattle.base.specs.Refusal.{written_over};
ghost use Rattle.base.specs.Index.{index_of};
ghost use Rattle.base.specs.Blend.{cofion_of, hmym_of, fakmap_of};
ghost use Rattle.base.specs.Files.{index_file_check, file_check, files_check, daw_check};

use crate::blend::{HeightMap, LandMap, SixMaps, cofion_of, fakmap_of, hmym_of};
use crate::finite::{record_words_check, table_words_check};
use crate::index::{IndexTable, index_check, index_of};
use crate::month_file::{RECORD, month_file_check, month_record_check};
use crate::refusal::{Refusal, Verdict};

// The verdict on a month file: 9 or 10 by its walk, then 23 by the words of its tables, then 11 by
// its index table.
#[tactic(auto, unfolding(crate::specs::Files::file_check))]
pub fn file_check(month: &[u8]) -> Verdict
    ensures { result ≡ file_check month.now }
{
    month_file_check(month)?;
    table_words_check(month)?;
    index_check(month)
}

// The verdict on an F2 record and a month file: 8 where the record has under 7,904 bytes, 9 or 10
// by the month file's walk, 23 by the words of the record and then of the month file's tables, and
// 11.
pub fn files_check(f2: &[u8], month: &[u8]) -> Verdict
    ensures { result ≡ files_check f2.now month.now }
{
    if f2.len() < RECORD {
        return Err(Refusal::Record);
    }
    month_file_check(month)?;
    record_words_check(f2, 1)?;
    table_words_check(month)?;
    index_check(month)
}

// The verdict on a `.daw` file that is to have the records of all months: 8 where it does not reach
// to the end of month 12's, then 23 by their words, the place counting from the file's start.
pub fn daw_check(daw: &[u8]) -> Verdict
    ensures { result ≡ daw_check daw.now }
{
    month_record_check(daw, 12)?;
    record_words_check(daw, 12)
}

#[tactic(auto, unfolding(crate::specs::Files::index_file_check))]
fn index_file_check(month: &[u8]) -> Verdict
    ensures { result ≡ index_file_check month.now }
{
    month_file_check(month)?;
    index_check(month)
}

// The 60 words of `ikim`, which are whole numbers, into the lent array: 9 or 10 by the month file's
// walk, then 11. Refused, the array stays as it is.
pub fn index(month: &[u8], out: &mut IndexTable) -> Verdict
    ensures answer { result ≡ index_file_check month.now }
    ensures buffer { let m = month.now in
        out.new ≡ written_over (index_file_check m) (index_of m) out.old }
{
    index_file_check(month)?;
    index_of(month, out);
    Ok(())
}

// The coefficients of the six maps at a sunspot number into the lent array, and the verdict of
// `files_check`. Refused, the array stays as it is.
pub fn cofion(f2: &[u8], month: &[u8], ssn: f32, out: &mut SixMaps) -> Verdict
    ensures answer { result ≡ files_check f2.now month.now }
    ensures buffer { let f = f2.now in
        let m = month.now in
        out.new ≡ written_over (files_check f m) (cofion_of f m ssn) out.old }
{
    files_check(f2, month)?;
    cofion_of(f2, month, ssn, out);
    Ok(())
}

// The coefficients of the height map at a sunspot number into the lent array, and the verdict of
// `file_check`. Refused, the array stays as it is.
pub fn hmym(month: &[u8], ssn: f32, out: &mut HeightMap) -> Verdict
    ensures answer { result ≡ file_check month.now }
    ensures buffer { let m = month.now in
        out.new ≡ written_over (file_check m) (hmym_of m ssn) out.old }
{
    file_check(month)?;
    hmym_of(month, ssn, out);
    Ok(())
}

// The words of the land map into the lent array, and the verdict of `file_check`. Refused, the
// array stays as it is.
pub fn fakmap(month: &[u8], out: &mut LandMap) -> Verdict
    ensures answer { result ≡ file_check month.now }
    ensures buffer { let m = month.now in
        out.new ≡ written_over (file_check m) (fakmap_of m) out.old }
{
    file_check(month)?;
    fakmap_of(month, out);
    Ok(())
}

// The four arrays that a sheet reads, from files that are checked once, and the verdict of
// `files_check`. Refused, all four stay as they are.
pub fn redmap(
    f2: &[u8],
    month: &[u8],
    ssn: f32,
    index: &mut IndexTable,
    cofion: &mut SixMaps,
    hmym: &mut HeightMap,
    fakmap: &mut LandMap,
) -> Verdict
    ensures answer { result ≡ files_check f2.now month.now }
    ensures index { let f = f2.now in
        let m = month.now in
        index.new ≡ written_over (files_check f m) (index_of m) index.old }
    ensures cofion { let f = f2.now in
        let m = month.now in
        cofion.new ≡ written_over (files_check f m) (cofion_of f m ssn) cofion.old }
    ensures hmym { let f = f2.now in
        let m = month.now in
        hmym.new ≡ written_over (files_check f m) (hmym_of m ssn) hmym.old }
    ensures fakmap { let f = f2.now in
        let m = month.now in
        fakmap.new ≡ written_over (files_check f m) (fakmap_of m) fakmap.old }
{
    // Four arrays and no struct of them: the clauses `index` to `fakmap` name each.
    files_check(f2, month)?;
    index_of(month, index);
    cofion_of(f2, month, ssn, cofion);
    hmym_of(month, ssn, hmym);
    fakmap_of(month, fakmap);
    Ok(())
}
