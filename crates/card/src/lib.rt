//! A command call on a card: the checks of the call, then the initial or the final command.
#![tactic(auto)]

ghost use Rattle.std.specs.Prelude.{◌≡◌, ◌-◌, ◌≤◌, length};
ghost use Rattle.octets.specs.Lists.{over};
ghost use Rattle.frame.specs.Frame.{data_of};
ghost use Rattle.frame.specs.Told.{decline_told};
ghost use Rattle.card.specs.Command.{outcome, answer_bytes};
ghost use Rattle.card.specs.After.{refused_try, told_of, after_decline, after_initial, after_final};

use final_command::Final;
use frame::Decline;
use initial::Initial;
use plaid_types::{Answer, Card, Outcome, Session, Tries};

// What a command call returns, and of the card only the session, and whether it was a refused final command: `command` copies the card, and
// the other functions do not.
#[derive(Clone, Copy)]
struct Told {
    answer: Answer,
    sum: u32,
    session: Session,
    refused: bool,
}

// A decline: no steps, and the session as it was. It is not counted.
fn decline(session: Session, d: Decline) -> Told
    ensures { result ≡ after_decline session (decline_told d) }
{
    let (number, status) = match d {
        Decline::Number(r) => (r.number(), 0),
        Decline::Status(f) => (0, f.status()),
    };
    Told {
        answer: Answer {
            number,
            status,
            ..Answer::default()
        },
        sum: 0,
        session,
        refused: false,
    }
}

// An initial command makes comparisons alone. A refused one is not counted.
fn after_initial(r: Initial) -> Told
    ensures { result ≡ after_initial r }
{
    let session = r.session;
    let refused = false;
    Told {
        answer: Answer {
            status: Answer::OK,
            comparisons: r.comparisons,
            length: r.length,
            handle: r.handle,
            ..Answer::default()
        },
        sum: r.sum,
        session,
        refused,
    }
}

// The session closes either way, and the key handle is 0.
fn after_final(r: Final) -> Told
    ensures { result ≡ after_final r }
{
    let accepted = r.accepted;
    Told {
        answer: Answer {
            status: Answer::OK,
            comparisons: r.comparisons,
            decipherments: r.decipherments,
            encipherments: r.encipherments,
            expansions: r.expansions,
            hash_blocks: r.hash_blocks,
            length: r.length,
            ..Answer::default()
        },
        sum: r.sum,
        session: Session::none(),
        refused: !accepted,
    }
}

// The Lc data bytes.
fn data_of(cmd: &[u8]) -> &[u8]
    requires { 6 ≤ length cmd.now }
    ensures { result.now ≡ data_of cmd.now }
{
    let end = cmd.len() - 1;
    &cmd[5..end]
}

// The checks of the call, then the command that its INS names.
fn tell(card: Card, interface: usize, cmd: &[u8], fresh: &[u8], out: &mut [u8]) -> Told
    ensures value { result ≡ told_of (refused_try card interface cmd.now fresh.now (length out.old)) (outcome card interface cmd.now fresh.now (length out.old)) }
    ensures out_after { out.new ≡ over out.old 0 (answer_bytes card interface cmd.now fresh.now (length out.old)) }
{
    let l = plaid_types::lawful(card.key_length);
    if let Err(d) = frame::check(interface, l, cmd, fresh, out.len()) {
        return decline(card.session, d);
    }
    let d = data_of(cmd);
    if cmd[1] == 0x87 {
        return after_initial(initial::run(card, d, fresh, out));
    }
    after_final(final_command::run(card, d, fresh, out))
}

// The one place that copies the card, of which a command changes the session and the failed tries alone.
pub fn command(card: Card, interface: usize, cmd: &[u8], fresh: &[u8], out: &mut [u8]) -> Outcome
    ensures told { result ≡ outcome card interface cmd.now fresh.now (length out.old) }
    ensures bytes { out.new ≡ over out.old 0 (answer_bytes card interface cmd.now fresh.now (length out.old)) }
{
    let t = tell(card, interface, cmd, fresh, out);
    let answer = t.answer;
    let session = t.session;
    let was = card.tries;
    let tries = was.after(interface, t.refused);
    let next = card.with_state(session, tries);
    Outcome {
        answer: answer,
        sum: t.sum,
        card: next,
    }
}

// The failed tries, as the personaliser reads them.
pub fn read_tries(card: Card) -> Tries
    ensures { result ≡ card.tries }
{
    let tries = card.tries;
    tries
}
