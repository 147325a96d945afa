// The walk: operations are placed in number order, one level deeper each time.
ghost use Rattle.std.specs.Prelude.{◌≡◌, ◌+◌, ◌-◌, ◌≤◌, ◌<◌, MatchOption};
ghost use Rattle.placing.specs.Bound.{shut as shut_of};
ghost use Rattle.placing.specs.Options.{put};
ghost use Rattle.placing.specs.Ready.{placing_of, option_at, Ready, Places};
ghost use Rattle.search.specs.Search.{walk_from};
ghost use Rattle.search.specs.Walking.{state_of, counted, goes_on, Walks};

use placing::Board;
use placing::rows::Rows;

// All operations placed, and the cost.
#[derive(Clone, Copy)]
pub(crate) struct Best {
    pub(crate) cost: u32,
    pub(crate) rows: Rows,
}

// How far a walk has come: arrivals so far, the rows placed, and the best where one is held.
#[derive(Clone, Copy)]
pub(crate) struct Walk {
    pub(crate) visits: u32,
    pub(crate) rows: Rows,
    pub(crate) best: Option<Best>,
}

impl Walk {
    // One arrival more. None: the budget is spent.
    pub(crate) fn arrive(&mut self, budget: u32) -> Option<()>
        ensures { MatchOption result (budget ≤ self.old.visits) (λ _. (self.old.visits < budget) × (self.new ≡ counted self.old)) }
    {
        if budget <= self.visits {
            return None;
        }
        self.visits += 1;
        Some(())
    }

    // A best is held, and the cost `here` is not below its cost.
    fn shut(&self, here: u32) -> bool
        ensures { result ≡ shut_of (state_of self.now).best here }
    {
        self.best.as_ref().is_some_and(|best| best.cost <= here)
    }

    // An option is three numbers, as Board::fits takes it.
    // Visits the placing with operation op at step s on instance i too, which is live, walks on from it, and takes the row back.
    // None: the budget is spent.
    #[cycle(visit_walk)]
    fn visit(
        &mut self,
        board: &Board,
        budget: u32,
        op: usize,
        here: u32,
        s: u16,
        i: usize,
    ) -> Option<()>
        requires { Places board.now op op (placing_of self.old.rows) self.old.rows.lows here s i × (self.old.visits ≤ budget) }
        ensures { Walks budget
            (walk_from board.now (board.now.n - (op + 1)) (put (placing_of self.old.rows) op (option_at s i)) (state_of self.old))
            result self.old self.new }
    {
        let low = self.rows.lower(board, i);
        let cost = board.cost_with(&self.rows, here, low, i);
        self.arrive(budget)?;
        if !self.shut(cost) {
            let was = self.rows.place(op, s, i);
            self.walk(board, budget, op + 1, cost)?;
            self.rows.take_back(op, was);
        }
        self.rows.raise(board, i, low);
        Some(())
    }

    // An arrival that goes on: operations below op are placed, at the cost `here`. None: the budget is spent.
    #[cycle(visit_walk)]
    pub(crate) fn walk(&mut self, board: &Board, budget: u32, op: usize, here: u32) -> Option<()>
        requires { Ready board.now op (placing_of self.old.rows) self.old.rows.lows here × (self.old.visits ≤ budget) }
        ensures { Walks budget (goes_on board.now (board.now.n - op) (placing_of self.old.rows) (state_of self.old)) result self.old self.new }
    {
        if op == board.n as usize {
            self.best = Some(Best {
                cost: here,
                rows: self.rows,
            });
            return Some(());
        }
        let first = board.first_start(&self.rows, op);
        for s in first..=board.t as u32 {
            for i in 0..board.k as usize {
                if board.fits(&self.rows, first < s, op, op, s as u16, i) {
                    self.visit(board, budget, op, here, s as u16, i)?;
                }
            }
        }
        Some(())
    }
}
