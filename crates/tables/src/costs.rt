// A cost table as one value. It has a file of its own, since definitions in specs/ name it.

ghost use Rattle.theory.specs.Tables.{limit, CostTable};

// A cost table: how many images it has, and their entries row by row. The checks below decide whether entries make one.
#[derive(Clone, Copy)]
pub struct Costs<'a> {
    pub n: usize,
    pub entries: &'a [u32],
    pub ghost formed: { CostTable limit n entries.now },
}
