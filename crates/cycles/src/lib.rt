// Cycles of a table of children: 64 places for each node instance, each with the position of the child of a bit. A value that is no position, or a place beyond the table, is no child.
#![tactic(auto)]

ghost use Rattle.std.specs.Prelude.{◌≡◌, ℕ, ◌*◌, ◌<◌, ◌≤◌, Bool, true, false, ◌&&◌, length, ◌==◌, nat_le, nat_lt, slice_index, IfSome};
ghost use Rattle.limits.specs.Limits.{library_limits};
ghost use Rattle.graph.specs.Below.{any};
ghost use Rattle.graph.specs.Chains.{names};
ghost use Rattle.walk.specs.TableGraph.{child_at};
ghost use Rattle.walk.specs.Fold.{or_else};
ghost use Rattle.cycles.specs.Cycle.{looked_at, table_edge, in_cycle, first_below, first_cycle};
ghost use Rattle.cycles.specs.Ranks.{ranks_at, pair_passes};
ghost use Rattle.cycles.specs.Order.{not_later, not_earlier, none_in, none_at};
ghost use Rattle.cycles.specs.Search.{UnmetIn};

// How many of n node instances are looked at.
#[tactic(auto, unfolding(crate::specs::Cycle::looked_at))]
fn looked_at(n: usize) -> usize
    ensures { result ≡ looked_at n }
{
    n.min(limits::NODE_INSTANCES)
}

// A lent table of children, and how many node instances it is of.
#[derive(Clone, Copy)]
struct Children<'a> {
    table: &'a [u16],
    size: usize,
    ghost few: { size ≤ library_limits.node_instances },
}

impl<'a> Children<'a> {
    // The child at the place k, or `size` where there is none.
    fn at(&self, k: usize) -> usize
        ensures { result ≡ or_else self.now.size (child_at self.now.size self.now.table.now k) }
    {
        walk::child_at(self.size, self.table, k)
    }

    // The place k holds the child c. It looks at one place.
    fn names(&self, k: usize, c: usize) -> bool
        requires { c < self.now.size }
        ensures { result ≡ names (child_at self.now.size self.now.table.now k) c }
    {
        self.at(k) == c
    }

    // Some bit of j has the child c. It looks at the 64 places of j once, up to the first that holds c.
    fn has_child(&self, j: usize, c: usize) -> bool
        requires { (j < self.now.size) × (c < self.now.size) }
        ensures { result ≡ table_edge self.now.size self.now.table.now j c }
    {
        for b in 0..64 {
            if self.names(j * 64 + b, c) {
                return true;
            }
        }
        false
    }

    // The instance j is done and has the child i. It looks at one mark, and at 64 places where j is done.
    fn done_parent(&self, marks: &[u8], i: usize, j: usize) -> bool
        requires { (self.now.size ≤ length marks.now) × (i < self.now.size) × (j < self.now.size) }
        ensures { result ≡ (slice_index marks.now j == 2) && table_edge self.now.size self.now.table.now j i }
    {
        marks[j] == 2 && self.has_child(j, i)
    }

    // Some done instance has the child i. It looks at a mark for each instance, and at 64 places for each that is done.
    fn closes(&self, marks: &[u8], i: usize) -> bool
        requires { (self.now.size ≤ length marks.now) × (i < self.now.size) }
        ensures { result ≡ any self.now.size (λ j. (slice_index marks.now j == 2) && table_edge self.now.size self.now.table.now j i) }
    {
        for j in 0..self.size {
            if self.done_parent(marks, i, j) {
                return true;
            }
        }
        false
    }

    // The instance i lies on a cycle. It takes one walk from i, of at most a step for each instance, each of which looks twice at the words of waiting bits and once at 64 places; then it looks at each of the places at most once more.
    fn on_cycle(&self, i: usize) -> bool
        requires { i < self.now.size }
        ensures { result ≡ in_cycle self.now.size self.now.table.now i }
    {
        let active = [u64::MAX; limits::NODE_INSTANCES];
        let walked = walk::run(&active[..self.size], self.table, i);
        self.closes(&walked.marks, i)
    }

    // The first instance from `first` on that lies on a cycle, or `size`, where none before `first` does. It takes one walk for each instance from `first` up to the answer.
    fn first_from(&self, first: usize) -> usize
        requires { (first ≤ self.now.size) × ((k : ℕ) → k < first → in_cycle self.now.size self.now.table.now k ≡ false) }
        ensures { result ≡ first_below self.now.size (in_cycle self.now.size self.now.table.now) }
    {
        for i in first..self.size {
            if self.on_cycle(i) {
                return i;
            }
        }
        self.size
    }

    // Every row of the table has its children in order, and the table has the 64 places of each instance. It looks at each place once, up to the end of the first row where it is not so.
    fn in_order<O: Order>(&self) -> bool
        ensures { result ≡ none_at (O.wrong self.now.size) self.now.size self.now.table.now }
    {
        for i in 0..self.size {
            let first = i * 64;
            let end = first + 64;
            if self.table.len() < end
                || !O::row(&self.table[first..end], i as u16, self.size as u16)
            {
                return false;
            }
        }
        true
    }

    // An instance before which none lies on a cycle, or `size` where none does at all: the order of the instances shows it, or else the ranks that the search finds. It looks at each of the places at most three times and at one of them once more, and the search at up to 64 in each of its turns.
    fn cleared(&self) -> usize
        ensures { (result ≤ self.now.size) × ((k : ℕ) → k < result → in_cycle self.now.size self.now.table.now k ≡ false) }
    {
        if self.in_order::<Forward>() || self.in_order::<Backward>() {
            return self.size;
        }
        let mut search = Search {
            rank: [UNMET; limits::NODE_INSTANCES],
            from: [0; limits::NODE_INSTANCES],
        };
        search.run(self);
        let k = search.first_not_below(self);
        if search.none_above(self, k) {
            k / 64
        } else {
            0
        }
    }
}

// An order in which the children of an instance may stand to it.
trait Order {
    // Of n instances, c is a child of i that does not stand so.
    ghost wrong: { ℕ → ℕ → ℕ → Bool };

    // All numbers of the row of the instance i of n stand so, or are not one of n. It looks at each once, and at all of them.
    // Kept: a flag of the numbers' width and no `all`, so that eight numbers are looked at in one step.
    fn row(row: &[u16], i: u16, n: u16) -> bool
        requires { i ≤ n }
        ensures { result ≡ none_in (wrong n i) row.now };
}

// Every child stands after its parent. A number that is not one of n is above it too.
struct Forward;

impl Order for Forward {
    ghost wrong = { λ n. not_later };

    fn row(row: &[u16], i: u16, _n: u16) -> bool {
        let mut bad: u16 = 0;
        for c in row {
            if *c <= i {
                bad |= 1;
            }
        }
        bad == 0
    }
}

// Every child stands before its parent.
struct Backward;

impl Order for Backward {
    ghost wrong = { not_earlier };

    fn row(row: &[u16], i: u16, n: u16) -> bool {
        let span = n - i;
        let mut bad: u16 = 0;
        for c in row {
            let ahead = c.wrapping_sub(i);
            if ahead < span {
                bad |= 1;
            }
        }
        bad == 0
    }
}

// The search for ranks is Tarjan's for strongly connected components: the instances of one component get one rank, and a child of another component has a rank below its parent's. The search keeps a number for each instance: UNMET until it comes there; then, while the instance is open, that of a turn: at first the instance's own, and later the least to which its children lead; and at last the rank. No contract says that the ranks are such: `cleared` looks, and ranks that are not only cost time.
#[derive(Clone, Copy)]
struct Search {
    // The number of each instance.
    rank: [u16; limits::NODE_INSTANCES],
    // Where the search came from to each instance: how many instances there are, where it began with it.
    from: [u16; limits::NODE_INSTANCES],
}

// The number of an instance to which the search has not come.
const UNMET: u16 = 0;

// The turns are numbered from 1 to this: two for each instance.
const TURNS: usize = 2 * limits::NODE_INSTANCES;

// The numbers from this on are ranks. Turns and ranks are within 16 bits.
const RANKED: u16 = TURNS as u16 + 1;

// What a look at an instance's children shows.
// Kept: an enum of its own and no `Result`, since neither case is a failure.
#[derive(Clone, Copy)]
enum Seen {
    // The first child to which the search has not come.
    Unmet(usize),
    // The search has come to all: the least of their numbers, or RANKED where none of them is open.
    Met(u16),
}

impl Search {
    // The ranks of the instance k / 64 and of the child that the place k holds. It looks at one place and two ranks.
    fn ranks(&self, children: &Children, k: usize) -> Option<(u16, u16)>
        requires { k < children.now.size * 64 }
        ensures { (p : ℕ → ℕ → Bool) → pair_passes p result ≡ ranks_at p self.now.rank children.now.size children.now.table.now k }
    {
        let c = children.at(k);
        if c < children.size {
            Some((self.rank[k / 64], self.rank[c]))
        } else {
            None
        }
    }

    // The place k holds a child whose rank is not below that of k's instance.
    fn not_below(&self, children: &Children, k: usize) -> bool
        requires { k < children.now.size * 64 }
        ensures { result ≡ ranks_at nat_le self.now.rank children.now.size children.now.table.now k }
    {
        self.ranks(children, k)
            .is_some_and(|(parent, child)| parent <= child)
    }

    // The place k holds a child whose rank is above that of k's instance.
    fn above(&self, children: &Children, k: usize) -> bool
        requires { k < children.now.size * 64 }
        ensures { result ≡ ranks_at nat_lt self.now.rank children.now.size children.now.table.now k }
    {
        self.ranks(children, k)
            .is_some_and(|(parent, child)| parent < child)
    }

    // The first place with a child whose rank is not below its parent's, or how many places there are. It looks at each place once, up to that one.
    fn first_not_below(&self, children: &Children) -> usize
        ensures { result ≡ first_below (children.now.size * 64) (ranks_at nat_le self.now.rank children.now.size children.now.table.now) }
    {
        let places = children.size * 64;
        for k in 0..places {
            if self.not_below(children, k) {
                return k;
            }
        }
        places
    }

    // No place from `first` on has a child whose rank is above its parent's. It looks at each of these places once, up to the first that has one.
    fn none_above(&self, children: &Children, first: usize) -> bool
        ensures { result ≡ true → (k : ℕ) → k < children.now.size * 64 → first ≤ k → ranks_at nat_lt self.now.rank children.now.size children.now.table.now k ≡ false }
    {
        for k in first..children.size * 64 {
            if self.above(children, k) {
                return false;
            }
        }
        true
    }

    // A look at the children of i. It looks at the 64 places of i once, up to that of the first child to which the search has not come.
    fn look(&self, children: &Children, i: usize) -> Seen
        requires { i < children.now.size }
        ensures { UnmetIn children.now.size result }
    {
        let mut least = RANKED;
        for b in 0..64 {
            let c = children.at(i * 64 + b);
            if c < children.size {
                let number = self.rank[c];
                if number == UNMET {
                    return Seen::Unmet(c);
                }
                least = least.min(number);
            }
        }
        Seen::Met(least)
    }

    // The search comes from i to c, whose own turn is t.
    fn meet(&mut self, c: usize, i: usize, t: usize)
        requires { c < library_limits.node_instances }
    {
        self.rank[c] = (t % 0x1_0000) as u16;
        self.from[c] = (i % 0x1_0000) as u16;
    }

    // The search leaves i at the turn t, with all its children met and the least of their numbers. Where none of them is open, i is a component by itself. Where one leads to a turn before i's own, i stays open. Otherwise i and the open instances that the search met after it are a component: these are among the first n, and it looks at each number once.
    fn leave(&mut self, n: usize, i: usize, least: u16, t: usize)
        requires { (n ≤ library_limits.node_instances) × (i < n) × (t ≤ 2 * library_limits.node_instances) }
    {
        let r = (TURNS + t) as u16;
        let own = self.rank[i];
        if RANKED <= least {
            self.rank[i] = r;
        } else if least < own {
            self.rank[i] = least;
        } else {
            for number in &mut self.rank[..n] {
                if own <= *number && *number < RANKED {
                    *number = r;
                }
            }
        }
    }

    // The turn t of the search, at i. The next one is at a child of i to which the search has not come; where there is none, it is where the search came from, unless it began at i.
    fn turn(&mut self, children: &Children, i: usize, t: usize) -> Option<usize>
        requires { (i < children.now.size) × (t ≤ 2 * library_limits.node_instances) }
        ensures { IfSome result (λ j. j < children.now.size) }
    {
        match self.look(children, i) {
            Seen::Unmet(c) => {
                self.meet(c, i, t + 1);
                Some(c)
            }
            Seen::Met(least) => {
                self.leave(children.size, i, least, t);
                let back = self.from[i] as usize;
                if back < children.size {
                    Some(back)
                } else {
                    None
                }
            }
        }
    }

    // The search from s, if it has not come there, with turns from first on; the answer is the turn after its last. The turns of all searches are at most two for each instance: one that leads to it, and one that leads back from it.
    fn run_from(&mut self, children: &Children, s: usize, first: usize) -> usize
        requires { s < children.now.size }
    {
        if self.rank[s] != UNMET {
            return first;
        }
        self.meet(s, children.size, first);
        let mut next = Some(s);
        for t in first..=TURNS {
            let Some(i) = next else {
                return t;
            };
            next = self.turn(children, i, t);
        }
        TURNS + 1
    }

    // The search from each instance in turn. It takes at most two turns for each instance, each of which looks at up to 64 places; and for each component that has a cycle it looks at a number of each instance.
    fn run(&mut self, children: &Children) {
        let mut t = 1;
        for s in 0..children.size {
            t = self.run_from(children, s, t);
        }
    }
}

// The first instance that lies on a cycle, or how many are looked at. It looks at n * 320 + 1 places at most, and takes one walk for each instance from the first that is not cleared up to the answer: none where there is no cycle, and by the search's ranks one where there is.
pub fn first_cycle(child: &[u16], n: usize) -> usize
    ensures { result ≡ first_cycle child.now n }
{
    let children = Children {
        table: child,
        size: looked_at(n),
    };
    children.first_from(children.cleared())
}
