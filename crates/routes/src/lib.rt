// Path costs, upper rows and routes of a link table, which is checked first.
#![tactic(auto)]

ghost use Rattle.std.specs.Prelude.{◌≡◌};
ghost use Rattle.ground.specs.Refusals.{◌then◌};
ghost use Rattle.ground.specs.Outcomes.{Left};
ghost use Rattle.theory.specs.Tables.{limit};
ghost use Rattle.theory.specs.Checks.{image_check};
ghost use Rattle.routes.specs.Orders.{path_checks, upper_checks, route_checks};
ghost use Rattle.routes.specs.Outcomes.{path_outcome, upper_outcome, route_outcome};

use ground::Refusal;

// 8: the image is outside 1..n.
fn check_image(n: usize, i: usize) -> Result<(), Refusal>
    ensures { result ≡ image_check n i }
{
    ground::refuse_if(ground::is_outside(1, n, i), 8, 0, 0)
}

// The checks of `path`, in their order.
fn check_path(
    n: usize,
    count: usize,
    fars: &[u64],
    costs: &[u32],
    i: usize,
    j: usize,
) -> Result<(), Refusal>
    ensures { result ≡ path_checks limit n count fars.now costs.now i j }
{
    links::check_rows_size(n, count, fars, costs)?;
    links::check_rows(theory::LIMIT, n, fars, costs)?;
    check_image(n, i)?;
    check_image(n, j)
}

// The path cost of images i and j, from 1, in the link table of `count` rows that stands in the two slices.
pub fn path(
    n: usize,
    count: usize,
    fars: &[u64],
    costs: &[u32],
    i: usize,
    j: usize,
) -> Result<u32, Refusal>
    ensures { result ≡ path_outcome limit n count fars.now costs.now i j }
{
    check_path(n, count, fars, costs, i, j)?;
    Ok(climbing::path_cost(fars, costs, i - 1, j - 1))
}

// The checks of `upper_rows`, in their order, for so many lent places.
fn check_uppers(
    n: usize,
    count: usize,
    fars: &[u64],
    costs: &[u32],
    room: usize,
) -> Result<(), Refusal>
    ensures { result ≡ upper_checks limit n count fars.now costs.now room }
{
    links::check_rows_size(n, count, fars, costs)?;
    ground::refuse_if(room < 2 * n - 3, 3, 0, 0)?;
    links::check_rows(theory::LIMIT, n, fars, costs)
}

// The upper row of each row of the link table, rows numbered from 1, at the front of the lent places.
pub fn upper_rows(
    n: usize,
    count: usize,
    fars: &[u64],
    costs: &[u32],
    out: &mut [u32],
) -> Result<usize, Refusal>
    ensures { Left (upper_outcome limit n count fars.now costs.now out.old) result out.new }
{
    check_uppers(n, count, fars, costs, out.len())?;
    climbing::put_uppers(fars, out);
    Ok(count)
}

// The checks of `route`, in their order, for so many lent places.
fn check_route(
    n: usize,
    count: usize,
    fars: &[u64],
    costs: &[u32],
    i: usize,
    room: usize,
) -> Result<(), Refusal>
    ensures { result ≡ route_checks limit n count fars.now costs.now i room }
{
    check_uppers(n, count, fars, costs, room)?;
    check_image(n, i)
}

// The route of image i, from 1: the rows, numbered from 1, from its own link up to the last, at the front of the lent places.
pub fn route(
    n: usize,
    count: usize,
    fars: &[u64],
    costs: &[u32],
    i: usize,
    out: &mut [u32],
) -> Result<usize, Refusal>
    ensures { Left (route_outcome limit n count fars.now costs.now i out.old) result out.new }
{
    check_route(n, count, fars, costs, i, out.len())?;
    let row = links::place_of(fars, links::own_link(n, i - 1));
    Ok(climbing::climb(fars, row, out, 0))
}
