// The walk over a graph of node instances that two lent tables give: a word of active bits for each instance, and 64 places for the children of each.
#![tactic(auto, unfolding(crate::specs::TableGraph::table_size))]

ghost use Rattle.std.specs.Prelude.{◌≡◌, List, ℕ, ◌+◌, ◌*◌, ◌≤◌, ◌<◌, ltb, length};
ghost use Rattle.walk.specs.TableGraph.{table_size, child_at, table_graph};
ghost use Rattle.walk.specs.Marks.{mark_count, first_waiting, waiting_words, state_of, step_walk, started, finished};
ghost use Rattle.walk.specs.Steps.{StepCount};
ghost use Rattle.walk.specs.Fold.{or_else, touch_child, touched_to};

// The words of waiting bits, one for each 64 marks.
const WORDS: usize = limits::NODE_INSTANCES / 64;

// The walk's state: a mark for each of 1,024 node instances: 0 untouched, 1 waiting, 2 done; and the waiting ones as the bits of words, 64 in each.
#[derive(Clone, Copy)]
pub struct Walk {
    pub marks: [u8; limits::NODE_INSTANCES],
    pub waiting: [u64; WORDS],
}

// A walk that has come to its end, and how many steps it took.
#[derive(Clone, Copy)]
pub struct Walked {
    pub marks: [u8; limits::NODE_INSTANCES],
    pub steps: usize,
}

// How many node instances the walk knows.
pub fn size(active: &[u64]) -> usize
    ensures { result ≡ table_size active.now }
{
    active.len().min(limits::NODE_INSTANCES)
}

// The first waiting instance, or the number of marks. It looks at each word once, up to the first that has a bit.
fn first_waiting(words: &[u64]) -> usize
    requires { length words.now ≤ 65536 }
    ensures { (m : List ℕ) → length m ≡ length words.now * 64 → words.now ≡ waiting_words m → result ≡ first_waiting m }
{
    for (j, word) in words.iter().enumerate() {
        if *word != 0 {
            return j * 64 + numbers::next_bit(*word) as usize;
        }
    }
    words.len() * 64
}

// The child at a place of the table, or n where there is none.
#[tactic(auto, using(crate::proofs::Tables::child_least, crate::proofs::Tables::child_beyond))]
pub fn child_at(n: usize, child: &[u16], k: usize) -> usize
    ensures { result ≡ or_else n (child_at n child.now k) }
{
    if k < child.len() {
        n.min(child[k] as usize)
    } else {
        n
    }
}

// The graph that two lent tables give, with how many of its node instances the walk knows.
#[derive(Clone, Copy)]
pub struct TableGraph<'a> {
    pub active: &'a [u64],
    pub children: &'a [u16],
    pub size: usize,
    ghost known: { size ≡ table_size active.now },
}

impl<'a> TableGraph<'a> {
    pub fn new(active: &'a [u64], children: &'a [u16]) -> TableGraph<'a>
        ensures { (result.active.now ≡ active.now) × (result.children.now ≡ children.now) }
    {
        TableGraph {
            active,
            children,
            size: size(active),
        }
    }

    // The child of the bit b of the instance i stands at the place k of i * 64 + b; or the graph's size where there is none.
    pub fn child(&self, k: usize) -> usize
        ensures { result ≡ or_else self.now.size (child_at self.now.size self.now.children.now k) }
    {
        child_at(self.size, self.children, k)
    }
}

// The child at a place of the table, if there is one and it is untouched, waits: its mark and its bit say so.
fn touch(m: &mut [u8], words: &mut [u64], child: &[u16], n: usize, k: usize)
    requires { (n ≤ length m.old) × (length m.old ≡ length words.old * 64) }
    ensures m_after { m.new ≡ touch_child m.old (child_at n child.now k) }
    ensures words_after { words.old ≡ waiting_words m.old → words.new ≡ waiting_words m.new }
{
    let c = child_at(n, child, k);
    if n <= c {
        return;
    }
    if m[c] != 0 {
        return;
    }
    m[c] = 1;
    let j = c / 64;
    let x = numbers::with_bit(words[j], (c % 64) as u8);
    words[j] = x;
}

// The untouched children of the instance k wait. It looks at each of its active bits once, and at no other.
fn touch_all(m: &mut [u8], words: &mut [u64], active: &[u64], child: &[u16], n: usize, k: usize)
    requires { (n ≡ table_size active.now) × (length m.old ≡ mark_count) × (k < n) × (length m.old ≡ length words.old * 64) }
    ensures m_after { m.new ≡ touched_to (table_graph active.now child.now) m.old k 64 }
    ensures words_after { words.old ≡ waiting_words m.old → words.new ≡ waiting_words m.new }
{
    let mut rest = active[k];
    while rest != 0 {
        let b = numbers::next_bit(rest);
        touch(m, words, child, n, k * 64 + b as usize);
        rest = numbers::without_next(rest);
    }
}

impl Walk {
    // The root waits, and nothing else is touched.
    pub fn start(root: usize) -> Walk
        ensures { result ≡ state_of (started root) }
    {
        let mut m = [0u8; limits::NODE_INSTANCES];
        let mut words = [0u64; WORDS];
        if root < limits::NODE_INSTANCES {
            m[root] = 1;
            let j = root / 64;
            let x = numbers::with_bit(words[j], (root % 64) as u8);
            words[j] = x;
            return Walk {
                marks: m,
                waiting: words,
            };
        }
        Walk {
            marks: m,
            waiting: words,
        }
    }

    // The first waiting instance, or the number of marks.
    pub fn first(self) -> usize
        ensures { self.waiting ≡ waiting_words self.marks → result ≡ first_waiting self.marks }
    {
        let words = self.waiting;
        first_waiting(&words)
    }

    // One of the first n instances waits.
    pub fn waiting(self, n: usize) -> bool
        ensures { self.waiting ≡ waiting_words self.marks → result ≡ ltb (first_waiting self.marks) n }
    {
        self.first() < n
    }

    // The first waiting instance is done, and its untouched children wait; no other mark changes. With none waiting nothing changes.
    pub fn step(self, active: &[u64], child: &[u16]) -> Walk
        ensures { self.waiting ≡ waiting_words self.marks → result ≡ step_walk (table_graph active.now child.now) self }
    {
        let mut m = self.marks;
        let mut words = self.waiting;
        let n = size(active);
        let k = first_waiting(&words);
        if n <= k {
            return self;
        }
        m[k] = 2;
        let j = k / 64;
        let x = numbers::without_next(words[j]);
        words[j] = x;
        touch_all(&mut m, &mut words, active, child, n, k);
        Walk {
            marks: m,
            waiting: words,
        }
    }
}

// Steps until none waits: at most one for each instance.
pub fn run(active: &[u64], child: &[u16], root: usize) -> Walked
    ensures value { result ≡ finished (table_graph active.now child.now) root }
    ensures step_count { StepCount (table_graph active.now child.now) root result }
{
    let n = size(active);
    let mut w = Walk::start(root);
    if n <= root {
        let m = w.marks;
        return Walked { marks: m, steps: 0 };
    }
    let mut steps = 0;
    while w.waiting(n) {
        w = w.step(active, child);
        steps += 1;
    }
    let m = w.marks;
    Walked { marks: m, steps }
}
