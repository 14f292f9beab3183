// A sheet's page with its points side by side, for people who read no hexadecimal digits.
ghost use Rattle.std.specs.Prelude.{◌≡◌, ◌+◌, ◌-◌, ◌*◌, ◌≤◌, ◌<◌, length, take};
ghost use Rattle.io.specs.Counts.{IsPrefixLen};
ghost use Rattle.listing.specs.Text.{Puts, HasRoom, decimal_of};
ghost use Rattle.listing.specs.Decimal.{decimal_text};
ghost use Rattle.listing.specs.Page.{page_row};
ghost use Rattle.listing.specs.Columns.{abreast, cell, cells_text, side_row, side_rows, point_numbers, points_head, columns_text};

use crate::decimal::put_float;
use crate::fields::{put_fields_words, put_right, put_whole};
use crate::page::{name, unit};
use crate::text::Text;
use maps::figures::FIGURES;
use maps::inputs::Inputs;

// At least the bytes of the longest page.
pub const COLUMNS: usize = 10000;

// How many points stand side by side.
fn points_abreast(count: u32) -> usize
    ensures answer { result ≡ abreast count }
    ensures bound { result ≤ 5 }
{
    if count < 5 { count as usize } else { 5 }
}

// Puts a text in its column.
#[tactic(auto, unfolding(crate::specs::Columns::cell, crate::specs::Fields::at_right))]
fn put_cell(text: &mut Text, piece: &[u8])
    requires piece_len_bound { length piece.now ≤ 44 }
    requires at_in_bounds { HasRoom text.old 45 }
    ensures { Puts text.old (cell piece.now) text.new }
{
    text.push(b' ');
    put_right(text, piece);
}

#[tactic(auto, using(crate::proofs::Sizes::sizes))]
fn put_figure(text: &mut Text, x: f32)
    requires { HasRoom text.old 45 }
    ensures { Puts text.old (cell (decimal_text x)) text.new }
{
    let mut out = [0u8; 44];
    let mut figure = Text::new(&mut out);
    put_float(&mut figure, x);
    put_cell(text, figure.written());
}

// Puts n numbers, each 29 after the one before it: a place and a count beside the slice, as the
// definition `cells_text` has them.
#[tactic(auto, using(crate::proofs::Sizes::sizes))]
fn put_cells(text: &mut Text, figures: &[f32; FIGURES], from: usize, n: usize)
    requires n_bound { n ≤ 5 }
    requires from_bound { from < 35 }
    requires n_in_bounds { HasRoom text.old (45 * n) }
    ensures { Puts text.old (cells_text figures.now from n) text.new }
{
    for p in 0..n {
        put_figure(text, figures[from + 29 * p]);
    }
}

// Puts the line of n numbers, with row k of the table.
#[tactic(auto, using(crate::proofs::Sizes::sizes), unfolding(crate::specs::Columns::side_row))]
fn put_side_row(text: &mut Text, k: usize, figures: &[f32; FIGURES], from: usize, n: usize)
    requires k_bound { k < 47 }
    requires n_bound { n ≤ 5 }
    requires from_bound { from < 35 }
    requires at_in_bounds { HasRoom text.old 247 }
    ensures { Puts text.old (side_row (page_row k) (cells_text figures.now from n)) text.new }
{
    text.put(&name(k));
    put_cells(text, figures, from, n);
    text.put(unit(k));
    text.put(b"\n");
}

// Puts m such lines: line k has row `first` + k, and its first number stands at `from` + k.
#[tactic(auto, using(crate::proofs::Sizes::sizes))]
fn put_side_rows(
    text: &mut Text,
    first: usize,
    figures: &[f32; FIGURES],
    from: usize,
    n: usize,
    m: usize,
)
    requires m_bound { first + m ≤ 47 }
    requires n_bound { n ≤ 5 }
    requires m_bound_2 { from + m ≤ 35 }
    requires m_in_bounds { HasRoom text.old (247 * m) }
    ensures { Puts text.old (side_rows first figures.now from n m) text.new }
{
    for k in 0..m {
        put_side_row(text, first + k, figures, from + k, n);
    }
}

#[tactic(auto, unfolding(crate::specs::Columns::cell))]
fn put_point_number(text: &mut Text, n: u32)
    requires { HasRoom text.old 17 }
    ensures { Puts text.old (cell (decimal_of n)) text.new }
{
    text.push(b' ');
    put_whole(text, n);
}

#[tactic(auto, using(crate::proofs::Sizes::sizes))]
fn put_point_numbers(text: &mut Text, n: usize)
    requires n_bound { n ≤ 5 }
    requires n_in_bounds { HasRoom text.old (21 * n) }
    ensures { Puts text.old (point_numbers n) text.new }
{
    for p in 0..n {
        put_point_number(text, (p + 1) as u32);
    }
}

#[tactic(auto, using(crate::proofs::Sizes::sizes), unfolding(crate::specs::Columns::points_head))]
fn put_points_head(text: &mut Text, n: usize)
    requires n_bound { n ≤ 5 }
    requires at_in_bounds { HasRoom text.old 118 }
    ensures { Puts text.old (points_head n) text.new }
{
    text.put(b"point       ");
    put_point_numbers(text, n);
    text.put(b"\n");
}

// Puts the page: the fields, the six figures of the path and the points that are there.
#[tactic(auto, using(crate::proofs::Sizes::sizes), unfolding(crate::specs::Columns::columns_text))]
pub(crate) fn put_columns(text: &mut Text, i: Inputs, count: u32, figures: &[f32; FIGURES])
    requires { HasRoom text.old 10000 }
    ensures { Puts text.old (columns_text i count figures.now) text.new }
{
    let n = points_abreast(count);
    put_fields_words(text, i);
    text.put(b"\n");
    put_side_rows(text, 12, figures, 0, 1, 6);
    text.put(b"\n");
    put_points_head(text, n);
    put_side_rows(text, 18, figures, 6, n, 29);
}

// Writes the page and gives its length in bytes.
#[tactic(auto, using(crate::proofs::Sizes::sizes))]
pub fn columns_text(
    i: Inputs,
    count: u32,
    figures: &[f32; FIGURES],
    out: &mut [u8; COLUMNS],
) -> usize
    ensures text { take result out.new ≡ columns_text i count figures.now }
    ensures count { IsPrefixLen result out.new }
{
    let mut text = Text::new(out);
    put_columns(&mut text, i, count, figures);
    text.len()
}
