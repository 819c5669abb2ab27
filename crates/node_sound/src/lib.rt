// Whether a node is sound, as a lent table must have it.
#![tactic(auto)]

mod fast;
mod rows;

ghost use Rattle.std.specs.Prelude.{◌≡◌};
ghost use Rattle.protocol.specs.Sound.{peer_sound, stage_counts, phase_counts, attempt_fits, among_asked, counted_asked, peers_sound, sound_node};

use fast::{is_at_rest, unused_zero};
use item::{Attempt, Incarnation};
use node::{count_peers, half, peer_of};
use phase::{is_confirming, is_up_idle};
use protocol::{Node, Peer, Phase, Stage};
use rows::rows_sound;

// Whether the node is sound at this place of the table of a group of n. Most nodes are Up, Idle and at rest, and these are
// judged by the numbers in their rows from n on alone.
#[tactic(auto, unfolding(protocol::specs::Sound::sound_node))]
pub fn node_sound(n: usize, place: usize, node: &Node) -> bool
    ensures { result ≡ sound_node n place node.now }
{
    if node.number != place || node.n != n {
        return false;
    }
    if is_up_idle(node.phase) && is_at_rest(node) {
        return unused_zero(n, &node.rows);
    }
    fields_sound(n, place, node)
}

// Whether a node of this number and this n is sound: its fields looked at one after the other.
#[tactic(auto, unfolding(protocol::specs::Sound::sound_node))]
fn fields_sound(n: usize, place: usize, node: &Node) -> bool
    requires { (node.now.number ≡ place) × (node.now.n ≡ n) }
    ensures { result ≡ sound_node n place node.now }
{
    let counted = count_peers(&node.counted);
    let asked = count_peers(&node.asked);
    attempt_fits(node.phase, node.attempt)
        && rows_sound(n, node)
        && peers_sound(place, n, &node.counted)
        && peers_sound(place, n, &node.asked)
        && phase_counts(node.phase, half(n), counted, asked)
        && counted_asked(node.phase, &node.counted, &node.asked)
}

// Whether the attempt is zero where the phase has no use for it.
#[tactic(auto, unfolding(protocol::specs::Sound::attempt_fits, item::specs::Counter::same_attempt))]
fn attempt_fits(phase: Phase, attempt: Attempt) -> bool
    ensures { result ≡ attempt_fits phase attempt }
{
    match phase {
        Phase::Down | Phase::Fetching => attempt == Attempt(0),
        Phase::Returning(_) | Phase::Up(_) => true,
    }
}

// Whether each of the peers may be counted or asked.
#[tactic(auto, unfolding(protocol::specs::Sound::peers_sound))]
fn peers_sound(number: usize, n: usize, peers: &[Peer; item::MAX_NODES]) -> bool
    ensures { result ≡ peers_sound number n peers.now }
{
    peers
        .iter()
        .enumerate()
        .all(|(k, peer)| peer_sound(number, n, k, *peer))
}

// Whether peer k may be counted or asked by the node of this number, or is noted not to be.
#[tactic(auto, unfolding(protocol::specs::Sound::peer_sound, item::specs::Counter::same_incarnation))]
fn peer_sound(number: usize, n: usize, k: usize, peer: Peer) -> bool
    ensures { result ≡ peer_sound number n k peer }
{
    if !peer.present {
        return peer.incarnation == Incarnation(0);
    }
    k < n && k != number
}

// Whether so many may be counted and asked in this phase.
#[tactic(auto, unfolding(protocol::specs::Sound::phase_counts))]
fn phase_counts(phase: Phase, f: usize, counted: usize, asked: usize) -> bool
    ensures { result ≡ phase_counts phase f counted asked }
{
    match phase {
        Phase::Down => counted == 0 && asked == 0,
        Phase::Fetching => counted <= f && asked == 0,
        Phase::Returning(stage) | Phase::Up(stage) => stage_counts(stage, f, counted, asked),
    }
}

// Whether so many may be counted and asked in this stage of a write.
#[tactic(auto, unfolding(protocol::specs::Sound::stage_counts))]
fn stage_counts(stage: Stage, f: usize, counted: usize, asked: usize) -> bool
    ensures { result ≡ stage_counts stage f counted asked }
{
    match stage {
        Stage::Idle => counted == 0 && asked == 0,
        Stage::Storing => counted < f && asked == 0,
        Stage::Confirming => counted < f && asked == f,
    }
}

// Whether everyone counted is asked, in a phase that asks.
#[tactic(auto, unfolding(protocol::specs::Sound::counted_asked))]
fn counted_asked(
    phase: Phase,
    counted: &[Peer; item::MAX_NODES],
    asked: &[Peer; item::MAX_NODES],
) -> bool
    ensures { result ≡ counted_asked phase counted.now asked.now }
{
    if !is_confirming(phase) {
        return true;
    }
    counted
        .iter()
        .enumerate()
        .all(|(k, peer)| among_asked(asked, k, *peer))
}

// Whether peer k is asked, if it is counted.
#[tactic(auto, unfolding(protocol::specs::Sound::among_asked))]
fn among_asked(asked: &[Peer; item::MAX_NODES], k: usize, peer: Peer) -> bool
    ensures { result ≡ among_asked asked.now k peer }
{
    !peer.present || peer_of(asked, k).is_some()
}
