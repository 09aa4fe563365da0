//! What the search should do next in a state: a list that is given the question's head, two facts that clash in a key, or a row of a view to repair and the
//! listed rows to try first.
//!
//! Nothing here is believed: the search checks each proposal, and has a complete walk for where there is none.
#![tactic(auto)]

ghost use Rattle.std.specs.Prelude.{◌≡◌};

use query_layout::COLUMNS;
use search_board::{
    Advice, Board, FactSet, Kept, MOST_KEPT, Plan, Row, RowSet, Scope, Words, asked_head,
    listed_row, moved_row,
};
use search_fits::Memory;
use search_look::Aim;

// From so many failures on, rows are tried before one of them is chosen.
const PATIENCE: u32 = 10;

// A row that comes late weighs so much more than others: more than the listed rows that a row can fit.
const LATE: usize = 99;

// So many rows may be visited in these trials.
const PROBE_BUDGET: u32 = 10000;

/// What is to be as it was when a step is undone: the facts that count and those folded, and how many rows are kept.
#[derive(Clone, Copy, Debug, Default)]
pub struct Standing {
    alive: FactSet,
    folded: FactSet,
    kept: usize,
}

// A state that advice is asked for: the words that tell it, whether the question is asked there, and values that slots cannot have.
#[derive(Drop)]
struct State<'a> {
    plan: &'a Plan,
    words: &'a Words,
    is_asked: bool,
    memory: &'a Memory,
}

// What trials of a kept row come to: they go on, they are enough, or a listed row fell.
#[derive(Clone, Copy, Debug, PartialEq, Eq)]
enum Trial {
    GoesOn,
    Ends,
    Fell(u8),
}

// A row of a view to repair, with no row to try first.
fn repair(kept: Kept) -> Advice {
    Advice::RowGiven {
        kept,
        first: RowSet::new(),
    }
}

// Lets the kept row k be the one at which trials stand.
fn go_on(board: &mut Board, k: usize) {
    board.trials.kept = k;
    board.trials.stood = RowSet::new();
    board.trials.fell = RowSet::new();
}

// Lets trials begin, with a kept row for where none tells more.
fn begin_trials(board: &mut Board, best: usize) {
    board.trials.least = usize::MAX;
    board.trials.best = best;
    board.trials.looked = 0;
    board.trials.hint = RowSet::new();
    board.trials.count = 2;
    go_on(board, 0);
}

// Notes how many listed rows kept row k fits, if something is to be done there, and the most that one fits.
fn put_count(board: &mut Board, k: usize, count: Option<u8>) {
    if k < MOST_KEPT {
        board.counts[k] = count;
    }
    if let Some(m) = count {
        board.most_fits = board.most_fits.max(m);
    }
}

// Whether rows are tried ahead after so many failures: from PATIENCE on, in turns. Each turn, with trials and without, is twice as long as the one
// before, so that neither way costs much more than the better of the two.
fn is_ahead(failures: u32) -> bool {
    let x = failures / PATIENCE;
    x != 0 && x.leading_zeros() % 2 == 1
}

impl State<'_> {
    // ---- trying a listed row

    // Why the facts where a row has become a listed one cannot stand, as one look tells.
    fn refutation(&self, board: &mut Board, row: &Row, to: &Row) -> Option<Advice> {
        if self.is_asked {
            let head = board.asked_head;
            let now = moved_row(row, to, &head);
            let scope = if now == head {
                Scope::Changed
            } else {
                Scope::All
            };
            let given = search_look::giving(board, self.plan, &now, scope);
            if given.is_some() {
                return given;
            }
        }
        let broken = search_clash::fatal_clash(board, self.plan);
        if broken.is_some() {
            return broken;
        }
        let kept = search_look::look(board, self.plan, self.memory, Scope::Changed, Aim::Try)?;
        Some(repair(kept))
    }

    // Why a row of a view cannot become listed row i, as one look tells. The board's facts are then as before.
    fn row_refutation(&self, board: &mut Board, row: &Row, i: u8) -> Option<Advice> {
        let to = listed_row(self.plan, i);
        let alive = board.alive;
        board.suppose(row, &to);
        let changed = board.changed;
        board.keep_one();
        let reason = self.refutation(board, row, &to);
        board.restore(self.plan, self.words, changed);
        board.alive = alive;
        reason
    }

    // Tries the listed rows in the set that have not been tried yet with a row: those that may stand and those that fell are noted. The first that falls.
    fn first_fallen(&self, board: &mut Board, row: &Row, set: RowSet) -> Option<u8> {
        let open = set.less(board.trials.stood).less(board.trials.fell);
        for i in open.iter() {
            if let Some(reason) = self.row_refutation(board, row, i) {
                board.trials.fell.insert(i);
                board.trials.reason = reason;
                return Some(i);
            }
            board.trials.stood.insert(i);
        }
        None
    }

    // ---- choosing a kept row

    // The listed rows that a kept row fits, and whether it is one of them.
    fn fits(&self, board: &Board, kept: &Kept, row: &Row) -> search_fits::Fitting {
        search_fits::fits(board, self.memory, usize::from(kept.view), row)
    }

    // Those of the listed rows in the set that a kept row can become so that its facts are there already.
    fn known_rows(&self, board: &Board, kept: &Kept, row: &Row, set: RowSet) -> RowSet {
        let mut known = RowSet::new();
        for i in set.iter() {
            let to = listed_row(self.plan, i);
            if search_order::are_known(board, self.plan, kept, row, &to) {
                known.insert(i);
            }
        }
        known
    }

    // Kept row k, with the listed rows to try first: of those in the hint, or of all that fit, the ones whose facts are there already.
    fn by_kept(&self, board: &Board, k: usize, hint: RowSet) -> Advice {
        let kept = board.kept_at(k);
        let row = board.kept_row(&kept);
        let set = if hint.is_empty() {
            self.fits(board, &kept, &row).set
        } else {
            hint
        };
        let known = self.known_rows(board, &kept, &row, set);
        Advice::RowGiven {
            kept,
            first: if known.is_empty() { hint } else { known },
        }
    }

    // How many listed rows kept row k fits, if something is to be done there: that it is left out is soon seen, and comes first.
    fn fit_count(&self, board: &Board, k: usize) -> Option<u8> {
        let kept = board.kept_at(k);
        let row = board.kept_row(&kept);
        if board.is_folded(&row) {
            return None;
        }
        let fitting = self.fits(board, &kept, &row);
        if fitting.is_listed {
            return None;
        }
        Some((fitting.set.count() % 128) as u8)
    }

    // What kept row k weighs that fits m listed rows: as many, and more where it comes late. One that fits one or none is never late.
    fn weight(&self, board: &Board, k: usize, m: u8) -> usize {
        if m < 2 || board.keyed.is_empty() {
            return usize::from(m);
        }
        let kept = board.kept_at(k);
        let row = board.kept_row(&kept);
        if search_order::is_late(board, self.plan, &kept, &row) {
            return LATE + usize::from(m);
        }
        usize::from(m)
    }

    // Counts for each kept row the listed rows that it fits; a kept row that weighs least, if something is to be done. Stops at one that fits one or none.
    fn survey(&self, board: &mut Board) -> Option<usize> {
        let mut best = None;
        let mut least = usize::MAX;
        for k in 0..board.kept.len() {
            let count = self.fit_count(board, k);
            put_count(board, k, count);
            if let Some(m) = count {
                let weight = self.weight(board, k, m);
                if weight < least {
                    least = weight;
                    best = Some(k);
                }
                if m < 2 {
                    return Some(k);
                }
            }
        }
        best
    }

    // Tries kept row k, and notes it if fewer listed rows are left of it than of those before.
    fn try_kept(&self, board: &mut Board, k: usize) -> Trial {
        let kept = board.kept_at(k);
        let row = board.kept_row(&kept);
        let set = self.fits(board, &kept, &row).set;
        if let Some(i) = self.first_fallen(board, &row, set) {
            return Trial::Fell(i);
        }
        let rows = set.and(board.trials.stood);
        let live = rows.count();
        if live < board.trials.least {
            board.trials.least = live;
            board.trials.best = k;
            board.trials.hint = rows;
        }
        if live < 2 || PROBE_BUDGET < board.trials.looked {
            return Trial::Ends;
        }
        Trial::GoesOn
    }

    // Tries those kept rows that fit m listed rows, from the one on at which trials stand.
    fn try_those(&self, board: &mut Board, m: u8) -> Trial {
        for k in board.trials.kept..board.kept.len() {
            if board.count_at(k) == Some(m) {
                board.trials.kept = k;
                let trial = self.try_kept(board, k);
                if trial != Trial::GoesOn {
                    return trial;
                }
                go_on(board, k + 1);
            }
        }
        board.trials.kept = 0;
        Trial::GoesOn
    }

    // Tries the kept rows, those first that fit few listed rows, from where trials stand: the listed row that falls, if one does.
    fn try_all(&self, board: &mut Board) -> Option<u8> {
        let begin = board.trials.count;
        let most = board.most_fits;
        for m in begin..=most {
            match self.try_those(board, m) {
                Trial::Fell(i) => return Some(i),
                Trial::Ends => return None,
                Trial::GoesOn => board.trials.count = m.saturating_add(1),
            }
        }
        None
    }

    // Goes on with the trials: a listed row that a kept row cannot become, or the kept row to repair.
    fn go_ahead(&self, board: &mut Board) -> Advice {
        if let Some(row) = self.try_all(board) {
            return Advice::RowFails {
                kept: board.kept_at(board.trials.kept),
                row,
            };
        }
        self.by_kept(board, board.trials.best, board.trials.hint)
    }

    // The kept row to repair.
    fn choose(&self, board: &mut Board) -> Advice {
        board.most_fits = 0;
        let Some(best) = self.survey(board) else {
            return Advice::Nothing;
        };
        if let Some(0 | 1) = board.count_at(best) {
            return repair(board.kept_at(best));
        }
        if !is_ahead(board.failures) {
            return self.by_kept(board, best, RowSet::new());
        }
        begin_trials(board, best);
        self.go_ahead(board)
    }

    // ---- the advice

    // Brings the board up to the words; which facts are new.
    fn bring_up(&self, board: &mut Board, from: usize) -> Scope {
        board.refresh(self.plan, self.words, from);
        if board.has_links {
            board.note_links(self.words);
        }
        search_fits::mark_struck(board, self.memory);
        board.keep_one();
        if board.is_started {
            return Scope::Changed;
        }
        board.is_started = true;
        Scope::All
    }

    // The row to repair, once no list is given the question's head; the last look, where rows may have been lost, is for any row that is not listed.
    fn advise_row(&self, board: &mut Board, from: usize, scope: Scope) -> Advice {
        if let Some(kept) = search_look::look(board, self.plan, self.memory, scope, Aim::Keep) {
            return repair(kept);
        }
        let fixed = if self.is_asked {
            board.asked_head
        } else {
            [0; COLUMNS]
        };
        search_fold::fold(board, self.plan, self.words, from, &fixed, scope);
        if let Some(broken) = search_clash::clash(board, self.plan) {
            board.has_links = true;
            return broken;
        }
        let chosen = self.choose(board);
        if chosen != Advice::Nothing || !board.over {
            return chosen;
        }
        match search_look::look(board, self.plan, self.memory, Scope::All, Aim::Any) {
            Some(kept) => repair(kept),
            None => Advice::Nothing,
        }
    }

    // What to do in the state.
    fn advise(&self, board: &mut Board, from: usize) -> Advice {
        let scope = self.bring_up(board, from);
        let old = board.asked_head;
        let head = asked_head(self.plan, self.words);
        board.asked_head = head;
        if self.is_asked {
            let by = if old == head { scope } else { Scope::All };
            if let Some(given) = search_look::giving(board, self.plan, &head, by) {
                return given;
            }
        }
        self.advise_row(board, from, scope)
    }
}

/// Begins with a board of no state; the tableau's atoms from one on are this search's.
pub fn begin(board: &mut Board, p: &Plan, from: usize) {
    board.begin(p, from);
    search_fits::note_rows(board, p);
}

/// What to do in the state that the words tell. Where the question is asked, a list that is given its head comes first. A key leaves one alternative, and
/// comes once facts that add nothing are left out.
pub fn advise(
    board: &mut Board,
    p: &Plan,
    ws: &Words,
    asked: bool,
    from: usize,
    memory: &Memory,
) -> Advice {
    let state = State {
        plan: p,
        words: ws,
        is_asked: asked,
        memory,
    };
    state.advise(board, from)
}

/// What to do next in the same state, once it was looked into that a row cannot become a listed one.
pub fn advise_on(board: &mut Board, p: &Plan, ws: &Words, asked: bool, memory: &Memory) -> Advice {
    search_fits::mark_struck(board, memory);
    let state = State {
        plan: p,
        words: ws,
        is_asked: asked,
        memory,
    };
    state.go_ahead(board)
}

/// Why a row cannot become a listed one: what is the case then.
pub fn reason(board: &Board) -> Advice {
    board.trials.reason
}

/// Counts a failure.
pub fn failed(board: &mut Board) {
    board.failures = board.failures.saturating_add(1);
}

/// Notes how the board stands after an advice. It is noted where it is wanted, since a search has one for each of its steps.
pub fn note_standing(board: &Board, stand: &mut Standing)
    ensures facts { (stand.new.alive ≡ board.now.alive) × (stand.new.folded ≡ board.now.folded) }
    ensures kept { stand.new.kept ≡ board.now.kept.count }
{
    stand.alive = board.alive;
    stand.folded = board.folded;
    stand.kept = board.kept.len();
}

/// Lets the board stand as it did, once the words are as they were.
pub fn back(board: &mut Board, p: &Plan, ws: &Words, from: usize, stand: &Standing) {
    board.refresh(p, ws, from);
    board.asked_head = asked_head(p, ws);
    board.kept.truncate(stand.kept);
    board.alive = stand.alive;
    board.folded = stand.folded;
}
