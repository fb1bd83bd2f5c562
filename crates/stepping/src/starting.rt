// The holding that a case starts with: m, n, and then runs, all with a single space between. The owner of what no run has is 255. Behind ` / ` may
// stand the shares of teams 0, 1 and so on, twelve at most; one that is not written is 0. Sizes and shortfall are counted afresh.
ghost use Rattle.holding.specs.Count.{Right};

use holding::Holding;
use lines::pieces;
use lines::runs::Run;

// Gives the instruments of a run their owner, whatever m is.
fn place(owner: &mut [u8; 64], run: Run) {
    for (g, place) in owner.iter_mut().enumerate() {
        if run.has(g) {
            *place = run.byte;
        }
    }
}

// The owners that a text of runs writes.
fn owners(text: &[u8]) -> [u8; 64] {
    let mut owner = [255u8; 64];
    for word in pieces::of(text, b' ') {
        place(&mut owner, Run::read(word));
    }
    owner
}

// The shares that a text writes, with single spaces between.
fn shares(text: &[u8]) -> [u8; 12] {
    let mut shares = [0u8; 12];
    for (share, word) in shares.iter_mut().zip(pieces::of(text, b' ')) {
        *share = lines::byte(lines::number_or_max(word));
    }
    shares
}

// The holding that a text writes.
pub fn read(text: &[u8]) -> Holding
    ensures { Right result }
{
    let (division, listed) = lines::split(text, b'/');
    let after = lines::rest(division);
    Holding::counted(
        lines::number_or_max(division),
        lines::number_or_max(after),
        owners(lines::rest(after)),
        shares(lines::trimmed(listed)),
    )
}
