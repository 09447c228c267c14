// The rows of a link table put as Newick text, by their upper rows. Rows are counted from 0, upper rows from 1.
#![tactic(auto)]

ghost use Rattle.std.specs.Prelude.{◌≡◌, ◌≤◌, length, replicate};
ghost use Rattle.newick_text.specs.LinkTrees.{image_of};
ghost use Rattle.newick_text.specs.Trees.{listed};
ghost use Rattle.text.specs.Putting.{Fits, Put};
ghost use Rattle.newick_rows.specs.Below.{Sized, cost_text, opening, tree_text};
ghost use Rattle.newick_rows.specs.Chains.{Chained, Upward, chain};

// The image that is alone in the far side s: as many images as there are zeros below its one are not in it.
#[tactic(auto, using(crate::specs::Laws::Searches::zeros_below))]
pub fn image_of(s: u64) -> usize
    ensures { result ≡ image_of s }
{
    s.trailing_zeros() as usize + 1
}

// A colon, the digits of the cost, and the byte behind them.
fn put_cost(out: &mut [u8], at: usize, c: u32, end: u8) -> usize
    requires { Fits (cost_text c end) at out.old }
    ensures { Put (cost_text c end) at out.old result out.new }
{
    let colon = text::put_byte(out, at, b':');
    let cost = text::put_number(out, colon, u64::from(c));
    text::put_byte(out, cost, end)
}

// How a row with the far side s begins: with a bracket where there are rows below it, else with its image.
fn put_opening(out: &mut [u8], at: usize, inner: bool, s: u64) -> usize
    requires { Fits (opening inner s) at out.old }
    ensures { Put (opening inner s) at out.old result out.new }
{
    if inner {
        return text::put_byte(out, at, b'(');
    }
    text::put_number(out, at, image_of(s) as u64)
}

// The chains of the rows: `latest` holds for each row the last row of which it is the upper row, `before` for each row
// the one before it that has the same upper row. All rows here are counted from 1, and 0 is none.
#[tactic(auto, using(crate::proofs::Laws::Chains::linked_none, crate::proofs::Laws::Chains::linked_more, crate::proofs::Laws::Chains::linked_all))]
fn chain_rows(above: &[u32], before: &mut [usize], latest: &mut [usize])
    requires { (length above.now ≤ 125) × Upward above.now × (length before.old ≡ 128) × (latest.old ≡ replicate 128 0) }
    ensures { Chained above.now before.new latest.new }
{
    for (i, upper) in above.iter().enumerate() {
        let p = *upper as usize;
        before[i] = latest[p];
        latest[p] = i + 1;
    }
}

// The k-th row, counted from 1, behind those before it with the same upper row: each is followed by a comma, and the last by
// the byte `end`. Nothing for k = 0. What falls is k; `above` is there for the contract alone.
#[tactic(auto, using(crate::proofs::Pieces::row_length, crate::proofs::Pieces::earlier_less, crate::proofs::Pieces::inner_less))]
fn put_below(
    out: &mut [u8],
    at: usize,
    fars: &[u64],
    costs: &[u32],
    above: &[u32],
    before: &[usize],
    latest: &[usize],
    k: usize,
    end: u8,
) -> usize
    requires known { k ≤ length fars.now }
    requires sized { Sized above.now fars.now costs.now }
    requires chained { Chained above.now before.now latest.now }
    requires fits { Fits (listed end (chain above.now fars.now costs.now k)) at out.old }
    ensures { Put (listed end (chain above.now fars.now costs.now k)) at out.old result out.new }
{
    if k == 0 {
        return at;
    }
    let j = k - 1;
    let inner = latest[k];
    let first = put_below(out, at, fars, costs, above, before, latest, before[j], b',');
    let open = put_opening(out, first, 0 < inner, fars[j]);
    let closed = put_below(out, open, fars, costs, above, before, latest, inner, b')');
    put_cost(out, closed, costs[j], end)
}

// The whole text at the front of the lent bytes: image 1 with the last row's cost, then the rows whose upper row is the last.
#[tactic(auto, using(crate::proofs::Pieces::tree_length, crate::proofs::Pieces::inner_less), unfolding(crate::specs::Below::tree_text))]
fn put_tree(
    out: &mut [u8],
    fars: &[u64],
    costs: &[u32],
    above: &[u32],
    before: &[usize],
    latest: &[usize],
) -> usize
    requires some { 1 ≤ length fars.now }
    requires sized { Sized above.now fars.now costs.now }
    requires chained { Chained above.now before.now latest.now }
    requires fits { Fits (tree_text above.now fars.now costs.now) 0 out.old }
    ensures { Put (tree_text above.now fars.now costs.now) 0 out.old result out.new }
{
    let count = fars.len();
    let last = count - 1;
    let open = text::put_byte(out, 0, b'(');
    let one = text::put_byte(out, open, b'1');
    let first = put_cost(out, one, costs[last], b',');
    let end = put_below(
        out,
        first,
        fars,
        costs,
        above,
        before,
        latest,
        latest[count],
        b')',
    );
    text::put_byte(out, end, b';')
}

// The same, by the upper rows alone.
pub fn put_rows(out: &mut [u8], fars: &[u64], costs: &[u32], above: &[u32]) -> usize
    requires { (1 ≤ length fars.now) × Sized above.now fars.now costs.now × Upward above.now
        × Fits (tree_text above.now fars.now costs.now) 0 out.old }
    ensures { Put (tree_text above.now fars.now costs.now) 0 out.old result out.new }
{
    let mut before = [0usize; 128];
    let mut latest = [0usize; 128];
    chain_rows(above, &mut before, &mut latest);
    put_tree(out, fars, costs, above, &before, &latest)
}
