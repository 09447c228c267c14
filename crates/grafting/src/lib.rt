// Grafting: the images are taken in an order, and each is grafted onto the path from the first image to the one placed before. The path
// is cut where the new image leaves it; what lies behind is closed, that is, put into the table, since no later image changes it. All
// costs are doubled. Images are counted from 0 but in the order, and places in the order from 0.
#![tactic(auto)]

ghost use Rattle.std.specs.Prelude.{◌≡◌, suc, ◌+◌, ◌<◌, ◌≤◌, length};
ghost use Rattle.tables.specs.Entries.{costs_in};
ghost use Rattle.recognition.specs.Seats.{Seated};
ghost use Rattle.grafting.specs.Held.{OwnTable, PathHeld, TableGrafted};
ghost use Rattle.grafting.specs.Steps.{CloseRoom, CloseRows};

use tables::Costs;

// Closes what of the first m rows of a path lies behind the height h; the new number of rows in the table.
fn close_rows(
    h: u32,
    m: usize,
    sides: &[u64],
    lengths: &[u32],
    fars: &mut [u64],
    costs: &mut [u32],
    count: usize,
) -> usize
    requires { CloseRoom m sides.now lengths.now fars.old costs.old count }
    ensures { CloseRows h m sides.now lengths.now fars.old costs.old count result fars.new
        costs.new }
{
    let mut togo = h;
    let mut all = count;
    for i in 0..m {
        let c = lengths[i];
        let stays = togo.min(c);
        all = rows::close_row(fars, costs, all, sides[i], c - stays);
        togo -= stays;
    }
    all
}

// The path of m rows to the image at place p becomes that to the image after it; the new number of its rows.
fn extend_path(
    t: &Costs<'_>,
    o: &[u32],
    p: usize,
    m: usize,
    sides: &mut [u64],
    lengths: &mut [u32],
) -> usize
    requires { Seated t.now.n o.now × (p + 1 < t.now.n) × PathHeld (costs_in t.now) o.now p m sides.old lengths.old }
    ensures { PathHeld (costs_in t.now) o.now (suc p) result sides.new lengths.new }
{
    let image = ground::bit_alone(recognition::seat_of(t.n, o, p + 1));
    let own = path_cuts::own_cost(t, o, p);
    let rest = path_cuts::keep_rows(path_cuts::height_at(t, o, p), image, m, sides, lengths);
    path_cuts::add_row(sides, lengths, rest, image, own)
}

// The own links of n images without cost, as the first rows of a table.
fn own_rows(n: usize, fars: &mut [u64], costs: &mut [u32])
    requires { (3 ≤ n) × (n ≤ 64) × (n ≤ length fars.old) × (n ≤ length costs.old) }
    ensures { OwnTable n fars.old costs.old fars.new costs.new }
{
    for i in 0..n - 1 {
        fars[i] = links::own_link(n, i + 1);
        costs[i] = 0;
    }
    fars[n - 1] = links::own_link(n, 0);
    costs[n - 1] = 0;
}

// Grafts all images in the order o; the number of rows of the table.
pub fn graft_all(t: &Costs<'_>, o: &[u32], fars: &mut [u64], costs: &mut [u32]) -> usize
    requires { Seated t.now.n o.now × (length fars.old ≡ 192) × (length costs.old ≡ 192) }
    ensures { TableGrafted (costs_in t.now) o.now t.now.n result fars.new costs.new }
{
    let mut sides = [0u64; 64];
    let mut lengths = [0u32; 64];
    own_rows(t.n, fars, costs);
    let mut count = t.n;
    let mut m = 0;
    for p in 0..t.n - 1 {
        count = close_rows(
            path_cuts::height_at(t, o, p),
            m,
            &sides,
            &lengths,
            fars,
            costs,
            count,
        );
        m = extend_path(t, o, p, m, &mut sides, &mut lengths);
    }
    close_rows(0, m, &sides, &lengths, fars, costs, count)
}
