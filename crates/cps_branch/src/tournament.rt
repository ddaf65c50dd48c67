//! A tournament of variables: the winner of all stands at the top, and where one variable changes, only the matches on
//! its way to the top are played again. Knuth, "The Art of Computer Programming", volume 3, section 5.2.3.
//!
//! Of n variables number i stands at node n + i, and at each node from 1 to n - 1 the winner of the two below it. Those
//! of node k are the nodes 2k and 2k + 1.
ghost use Rattle.std.specs.Prelude.{ℕ, ◌≡◌, ◌<◌, ◌≤◌, ◌+◌, ◌*◌, ◌/◌, length};
ghost use Rattle.cps_branch.specs.Tournament.{AreWon, AreWonBut, IsWinner, IsWon, SameNodesBut, SameVariables, stands_at};

/// A variable in a tournament.
#[derive(Clone, Copy)]
pub(crate) struct Contender {
    pub variable: u32,
    pub activity: u64,
    /// Whether it takes part. One that does not loses against each that does.
    pub in_play: bool,
}

/// The winner of two contenders: the one in play; of two in play the more active; of equally active ones the earlier
/// variable.
fn winner(one: Contender, other: Contender) -> Contender
    ensures { IsWinner one other result }
{
    if !other.in_play {
        return one;
    }
    if !one.in_play || one.activity < other.activity {
        return other;
    }
    if one.activity == other.activity && other.variable < one.variable {
        return other;
    }
    one
}

/// Plays the match of a node.
fn play(nodes: &mut [Contender], node: usize)
    requires low { 1 ≤ node }
    requires high { 2 * node + 1 < length nodes.old }
    ensures same_length { length nodes.new ≡ length nodes.old }
    ensures won { IsWon nodes.new node }
    ensures others { SameNodesBut node nodes.old nodes.new }
{
    nodes[node] = winner(nodes[2 * node], nodes[2 * node + 1]);
}

/// Plays the matches on the way from a variable to the top once more, after its contender has changed.
fn play_up(nodes: &mut [Contender], count: usize, variable: usize)
    requires size { length nodes.old ≡ 2 * count }
    requires variable { variable < count }
    requires below { AreWonBut count nodes.old ((count + variable) / 2) }
    ensures same_length { length nodes.new ≡ length nodes.old }
    ensures won { AreWon count nodes.new }
    ensures variables { SameVariables count nodes.old nodes.new }
{
    let mut node = count + variable;
    while node > 1 {
        node /= 2;
        play(nodes, node);
    }
}

/// Puts a contender in its variable's place.
pub(crate) fn enter(nodes: &mut [Contender], count: usize, contender: Contender)
    requires size { length nodes.old ≡ 2 * count }
    requires variable { contender.variable < count }
    requires won { AreWon count nodes.old }
    ensures same_length { length nodes.new ≡ length nodes.old }
    ensures won { AreWon count nodes.new }
    ensures here { stands_at nodes.new (count + contender.variable) ≡ contender }
    ensures others { (i : ℕ) → (i ≡ contender.variable → ⊥)
        → stands_at nodes.new (count + i) ≡ stands_at nodes.old (count + i) }
{
    let variable = contender.variable as usize;
    nodes[count + variable] = contender;
    play_up(nodes, count, variable);
}
