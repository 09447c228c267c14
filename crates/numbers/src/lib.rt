// Every answer of a public call as a struct of numbers, so that it can cross to C and Fortran. Each kind of answer has a struct of its own;
// all begin with the same head. Every field is a machine word, so that no struct has padding.
#![tactic(auto)]

ghost use Rattle.std.specs.Prelude.{◌≡◌};
ghost use Rattle.numbers.specs.Heads.{accepted, refused};
ghost use Rattle.numbers.specs.Levels.{of_levels};
ghost use Rattle.numbers.specs.Numbers.{of_index, of_order, of_rows, of_path, of_comparison, of_shared};
ghost use Rattle.numbers.specs.Replays.{of_replayed};
ghost use Rattle.numbers.specs.Reports.{of_end, of_report};
ghost use Rattle.report.specs.Outcome.{end_in, seen_as, table_in};
ghost use Rattle.numbers.specs.Stored.{of_bytes, of_batched, of_costs, of_links, of_chosen, of_tree};

use choice::Choice;
use counts::Difference;
use ground::{Refusal, TableRefusal};
use leaving::Replayed;
use newick_reader::TreeRead;
use report::TermReport;
use stored_costs::CostsRead;
use stored_links::LinksRead;

// The refusal's number, 0 where the call was accepted; the table that was refused, where a call takes more than one; the refusal's places.
// Unused ones are 0.
#[repr(C)]
#[derive(Clone, Copy, Default)]
pub struct KemotuikiHead {
    pub number: usize,
    pub table: usize,
    pub a: usize,
    pub b: usize,
    pub c: usize,
    pub d: usize,
}

// The index of a division, below 0 where some choice of images speaks against it.
#[repr(C)]
#[derive(Clone, Copy)]
pub struct KemotuikiIndex {
    pub head: KemotuikiHead,
    pub signed_index: i64,
}

// How many images were written.
#[repr(C)]
#[derive(Clone, Copy)]
pub struct KemotuikiOrder {
    pub head: KemotuikiHead,
    pub images: usize,
}

// How many groups were written.
#[repr(C)]
#[derive(Clone, Copy)]
pub struct KemotuikiLevels {
    pub head: KemotuikiHead,
    pub groups: usize,
}

// How many rows were written.
#[repr(C)]
#[derive(Clone, Copy)]
pub struct KemotuikiRows {
    pub head: KemotuikiHead,
    pub rows: usize,
}

// The path cost of two images.
#[repr(C)]
#[derive(Clone, Copy)]
pub struct KemotuikiPath {
    pub head: KemotuikiHead,
    pub cost: usize,
}

// Two trees compared: inner rows of each, common far sides, the Robinson-Foulds count and what it stands over.
#[repr(C)]
#[derive(Clone, Copy)]
pub struct KemotuikiComparison {
    pub head: KemotuikiHead,
    pub inner_first: usize,
    pub inner_second: usize,
    pub common: usize,
    pub count: usize,
    pub over: usize,
}

// How many bytes were written.
#[repr(C)]
#[derive(Clone, Copy)]
pub struct KemotuikiBytes {
    pub head: KemotuikiHead,
    pub used: usize,
}

// A stored cost table: its images, and the bytes that it used.
#[repr(C)]
#[derive(Clone, Copy)]
pub struct KemotuikiCosts {
    pub head: KemotuikiHead,
    pub n: usize,
    pub used: usize,
}

// A stored link table: its images, its rows, and the bytes that it used.
#[repr(C)]
#[derive(Clone, Copy)]
pub struct KemotuikiLinks {
    pub head: KemotuikiHead,
    pub n: usize,
    pub rows: usize,
    pub used: usize,
}

// The table that was chosen, 1 or 2, and the bytes that it used.
#[repr(C)]
#[derive(Clone, Copy)]
pub struct KemotuikiChoice {
    pub head: KemotuikiHead,
    pub chosen: usize,
    pub used: usize,
}

// The tree of a Newick text: its images and its rows.
#[repr(C)]
#[derive(Clone, Copy)]
pub struct KemotuikiTree {
    pub head: KemotuikiHead,
    pub n: usize,
    pub rows: usize,
}

// Where a replay ended: the images that are left, the rows written, and the event that was refused, 0 where it is the start or none was.
#[repr(C)]
#[derive(Clone, Copy)]
pub struct KemotuikiReplay {
    pub head: KemotuikiHead,
    pub images: usize,
    pub rows: usize,
    pub event: usize,
}

// The figures of a term report, as `report::TermReport` has them; where a table was refused, its number stands in the head.
#[repr(C)]
#[derive(Clone, Copy)]
pub struct KemotuikiReport {
    pub head: KemotuikiHead,
    pub images: usize,
    pub tables: usize,
    pub accepted: usize,
    pub apart: usize,
    pub sides: usize,
    pub pairs: usize,
    pub count_sum: usize,
    pub largest_count: usize,
    pub used: usize,
}

// The head of an accepted answer.
fn accept() -> KemotuikiHead
    ensures { result ≡ accepted }
{
    KemotuikiHead::default()
}

// The head of a refusal, with the table's number beside the places.
impl From<TableRefusal> for KemotuikiHead {
    ghost from_gives = { λ r h. h ≡ refused r.table r.refusal };

    fn from(r: TableRefusal) -> KemotuikiHead {
        KemotuikiHead {
            number: r.refusal.number as usize,
            table: r.table,
            a: r.refusal.a,
            b: r.refusal.b,
            c: r.refusal.c,
            d: r.refusal.d,
        }
    }
}

// The head of a refusal that is no table's.
impl From<Refusal> for KemotuikiHead {
    ghost from_gives = { λ r h. h ≡ refused 0 r };

    fn from(r: Refusal) -> KemotuikiHead {
        r.in_table(0).into()
    }
}

// The head of what passed, or of its refusal.
impl From<Result<(), TableRefusal>> for KemotuikiHead {
    ghost from_gives = { λ x h. h ≡ of_end (table_in x) (end_in x) };

    fn from(x: Result<(), TableRefusal>) -> KemotuikiHead {
        match x {
            Ok(()) => accept(),
            Err(r) => r.into(),
        }
    }
}

// The same where the refusal is no table's.
impl From<Result<(), Refusal>> for KemotuikiHead {
    ghost from_gives = { λ x h. h ≡ of_end 0 x };

    fn from(x: Result<(), Refusal>) -> KemotuikiHead {
        match x {
            Ok(()) => accept(),
            Err(r) => r.into(),
        }
    }
}

// The numbers of an index.
impl From<Result<i64, Refusal>> for KemotuikiIndex {
    ghost from_gives = { λ x r. r ≡ of_index x };

    fn from(x: Result<i64, Refusal>) -> KemotuikiIndex {
        match x {
            Ok(v) => KemotuikiIndex {
                head: accept(),
                signed_index: v,
            },
            Err(r) => KemotuikiIndex {
                head: r.into(),
                signed_index: 0,
            },
        }
    }
}

// The numbers of an order.
impl From<Result<usize, Refusal>> for KemotuikiOrder {
    ghost from_gives = { λ x r. r ≡ of_order x };

    fn from(x: Result<usize, Refusal>) -> KemotuikiOrder {
        match x {
            Ok(images) => KemotuikiOrder {
                head: accept(),
                images,
            },
            Err(r) => KemotuikiOrder {
                head: r.into(),
                images: 0,
            },
        }
    }
}

// The numbers of the reading of levels.
impl From<Result<usize, Refusal>> for KemotuikiLevels {
    ghost from_gives = { λ x r. r ≡ of_levels x };

    fn from(x: Result<usize, Refusal>) -> KemotuikiLevels {
        match x {
            Ok(groups) => KemotuikiLevels {
                head: accept(),
                groups,
            },
            Err(r) => KemotuikiLevels {
                head: r.into(),
                groups: 0,
            },
        }
    }
}

// The numbers of a call that wrote rows.
impl From<Result<usize, Refusal>> for KemotuikiRows {
    ghost from_gives = { λ x r. r ≡ of_rows x };

    fn from(x: Result<usize, Refusal>) -> KemotuikiRows {
        match x {
            Ok(rows) => KemotuikiRows {
                head: accept(),
                rows,
            },
            Err(r) => KemotuikiRows {
                head: r.into(),
                rows: 0,
            },
        }
    }
}

// The numbers of a path cost.
impl From<Result<u32, Refusal>> for KemotuikiPath {
    ghost from_gives = { λ x r. r ≡ of_path x };

    fn from(x: Result<u32, Refusal>) -> KemotuikiPath {
        match x {
            Ok(v) => KemotuikiPath {
                head: accept(),
                cost: v as usize,
            },
            Err(r) => KemotuikiPath {
                head: r.into(),
                cost: 0,
            },
        }
    }
}

// The numbers of a comparison.
impl From<Result<Difference, TableRefusal>> for KemotuikiComparison {
    ghost from_gives = { λ x r. r ≡ of_comparison x };

    fn from(x: Result<Difference, TableRefusal>) -> KemotuikiComparison {
        match x {
            Ok(w) => KemotuikiComparison {
                head: accept(),
                inner_first: w.first,
                inner_second: w.second,
                common: w.common,
                count: w.count,
                over: w.over,
            },
            Err(r) => KemotuikiComparison {
                head: r.into(),
                inner_first: 0,
                inner_second: 0,
                common: 0,
                count: 0,
                over: 0,
            },
        }
    }
}

// The numbers of the rows that a team shares.
impl From<Result<usize, TableRefusal>> for KemotuikiRows {
    ghost from_gives = { λ x r. r ≡ of_shared x };

    fn from(x: Result<usize, TableRefusal>) -> KemotuikiRows {
        match x {
            Ok(rows) => KemotuikiRows {
                head: accept(),
                rows,
            },
            Err(r) => KemotuikiRows {
                head: r.into(),
                rows: 0,
            },
        }
    }
}

// The numbers of a call that wrote bytes.
impl From<Result<usize, Refusal>> for KemotuikiBytes {
    ghost from_gives = { λ x r. r ≡ of_bytes x };

    fn from(x: Result<usize, Refusal>) -> KemotuikiBytes {
        match x {
            Ok(used) => KemotuikiBytes {
                head: accept(),
                used,
            },
            Err(r) => KemotuikiBytes {
                head: r.into(),
                used: 0,
            },
        }
    }
}

// The numbers of a batch.
impl From<Result<usize, TableRefusal>> for KemotuikiBytes {
    ghost from_gives = { λ x r. r ≡ of_batched x };

    fn from(x: Result<usize, TableRefusal>) -> KemotuikiBytes {
        match x {
            Ok(used) => KemotuikiBytes {
                head: accept(),
                used,
            },
            Err(r) => KemotuikiBytes {
                head: r.into(),
                used: 0,
            },
        }
    }
}

// The numbers of a stored cost table.
impl From<Result<CostsRead, Refusal>> for KemotuikiCosts {
    ghost from_gives = { λ x r. r ≡ of_costs x };

    fn from(x: Result<CostsRead, Refusal>) -> KemotuikiCosts {
        match x {
            Ok(read) => KemotuikiCosts {
                head: accept(),
                n: read.n,
                used: read.used,
            },
            Err(r) => KemotuikiCosts {
                head: r.into(),
                n: 0,
                used: 0,
            },
        }
    }
}

// The numbers of a stored link table.
impl From<Result<LinksRead, Refusal>> for KemotuikiLinks {
    ghost from_gives = { λ x r. r ≡ of_links x };

    fn from(x: Result<LinksRead, Refusal>) -> KemotuikiLinks {
        match x {
            Ok(read) => KemotuikiLinks {
                head: accept(),
                n: read.n,
                rows: read.count,
                used: read.used,
            },
            Err(r) => KemotuikiLinks {
                head: r.into(),
                n: 0,
                rows: 0,
                used: 0,
            },
        }
    }
}

// The numbers of a choice.
impl From<Result<Choice, TableRefusal>> for KemotuikiChoice {
    ghost from_gives = { λ x r. r ≡ of_chosen x };

    fn from(x: Result<Choice, TableRefusal>) -> KemotuikiChoice {
        match x {
            Ok(choice) => KemotuikiChoice {
                head: accept(),
                chosen: choice.table,
                used: choice.used,
            },
            Err(r) => KemotuikiChoice {
                head: r.into(),
                chosen: 0,
                used: 0,
            },
        }
    }
}

// The numbers of the tree of a Newick text.
impl From<Result<TreeRead, Refusal>> for KemotuikiTree {
    ghost from_gives = { λ x r. r ≡ of_tree x };

    fn from(x: Result<TreeRead, Refusal>) -> KemotuikiTree {
        match x {
            Ok(tree) => KemotuikiTree {
                head: accept(),
                n: tree.n,
                rows: tree.count,
            },
            Err(r) => KemotuikiTree {
                head: r.into(),
                n: 0,
                rows: 0,
            },
        }
    }
}

// The numbers of a replay; those of a refused event have the table before it.
impl From<Replayed> for KemotuikiReplay {
    ghost from_gives = { λ x r. r ≡ of_replayed x };

    fn from(x: Replayed) -> KemotuikiReplay {
        KemotuikiReplay {
            head: x.stop.into(),
            images: x.images,
            rows: x.rows,
            event: x.event,
        }
    }
}

// The numbers of a term report; those of a refused table are of the tables before it.
impl From<TermReport> for KemotuikiReport {
    ghost from_gives = { λ x r. r ≡ of_report (seen_as x) };

    fn from(x: TermReport) -> KemotuikiReport {
        let figures = x.figures;
        KemotuikiReport {
            head: x.stop.into(),
            images: figures.images,
            tables: figures.tables,
            accepted: figures.accepted,
            apart: figures.apart,
            sides: figures.sides,
            pairs: figures.pairs,
            count_sum: figures.count_sum,
            largest_count: figures.largest_count,
            used: figures.used,
        }
    }
}
