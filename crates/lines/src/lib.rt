// The first steps of a clause that stand in a line, one schema applied to one row after the other: the
// pairs that are not settled and of which the rows' own words tell that they hold are settled before any
// other of the clause, and no frame is made for them.
//
// The contracts cite `specs/State.antt` and `specs/Steps.antt` of `progress`, and of what is lent
// `specs/Lent.antt` and `specs/Reads.antt` of `lent`.
#![tactic(auto)]

ghost use Rattle.std.specs.Prelude.{◌≡◌, ◌+◌, ◌≤◌, ◌<◌};
ghost use Rattle.rulesheet.specs.Sheet.{schema_at};
ghost use Rattle.areas.specs.Cells.{pair_is, Unsettled};
ghost use Rattle.told.specs.Read.{Started};
ghost use Rattle.line.specs.Lines.{InLine};
ghost use Rattle.lent.specs.Lent.{clause_at, before_of, RowsPass};
ghost use Rattle.lent.specs.Reads.{lent_case, row_of};
ghost use Rattle.progress.specs.State.{rank_of, Ready};
ghost use Rattle.progress.specs.Steps.{StandsAt};

use areas::settle;
use lent::Lent;
use marking::give;
use rulesheet::form::ClauseRow;
use sheet::record::{Pair, RecordRow};
use stepping::line;
use trying::plain_rows;

// Settles n pairs in a line that clause i of the pair p applies first, of which the rows' own words tell
// that they hold: those of q's schema on the rows from q's on.
fn settle_line(
    lent: &Lent<'_>,
    cells: &mut [u8],
    list: &mut [u32],
    count: usize,
    p: Pair,
    i: u32,
    q: Pair,
    n: u32,
)
    requires ready { Ready (lent_case lent.now) (rank_of (lent_case lent.now) (pair_is p)) (pair_is p) cells.old list.old count }
    requires unsettled { Unsettled (lent_case lent.now).m (pair_is p) cells.old × (i < (schema_at lent.now.rules.now p.rule.0).count) }
    requires in_line { InLine (lent_case lent.now).doc (pair_is p) (before_of (lent_case lent.now) (pair_is p) i) (clause_at (lent_case lent.now) (pair_is p) i) q.row.0 n q.rule.0 }
    requires rows_pass { RowsPass (lent_case lent.now) (pair_is q) (schema_at lent.now.rules.now q.rule.0).count n cells.old × (q.row.0 + n ≤ (lent_case lent.now).n) }
    ensures { StandsAt (lent_case lent.now) (pair_is p) i cells.old list.old count n cells.new list.new }
{
    let m = lent.schemas();
    let mut now = count;
    for k in 0..n {
        let row = RecordRow(q.row.0 + k);
        let at = Pair { row, ..q };
        now = settle(cells, list, m, at, true, now);
        give(lent, cells, p, at, true);
    }
}

// Settles those of the first steps of clause i of the pair p that stand in a line and of which the rows'
// own words tell that they hold. The answer is how many.
pub fn in_line(
    lent: &Lent<'_>,
    cells: &mut [u8],
    list: &mut [u32],
    count: usize,
    p: Pair,
    i: u32,
    row: ClauseRow,
    from: u32,
) -> u32
    requires ready { Ready (lent_case lent.now) (rank_of (lent_case lent.now) (pair_is p)) (pair_is p) cells.old list.old count }
    requires unsettled_at_clause { Unsettled (lent_case lent.now).m (pair_is p) cells.old × (i < (schema_at lent.now.rules.now p.rule.0).count) }
    requires row_read_and_started { (row ≡ row_of lent.now (pair_is p) i) × Started (before_of (lent_case lent.now) (pair_is p) i) (clause_at (lent_case lent.now) (pair_is p) i) from }
    ensures { StandsAt (lent_case lent.now) (pair_is p) i cells.old list.old count result cells.new list.new }
{
    let at = line(lent, p, i, row, from);
    if at.count == 0 {
        return 0;
    }
    let q = Pair {
        row: RecordRow(at.first),
        rule: at.rule,
    };
    let n = plain_rows(lent, cells, q, at.count);
    settle_line(lent, cells, list, count, p, i, q, n);
    n
}
