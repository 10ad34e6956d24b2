// The network file: read once from the first record to the last, with its refusal or its counts.
#![tactic(auto)]

ghost use Rattle.std.specs.Prelude.{◌≡◌, ◌<◌, length};
ghost use Rattle.pywr.specs.NetworkFile.{read_records, parse_network};
ghost use Rattle.network.specs.Loaded.{start, result_of, Placed};

use network_record::{Counts, Mark};
use pywr::Refusal;

// The records up to the file's end: refusals 1 to 6, 19 and 20.
pub fn scan(s: &[u8]) -> Result<Counts, Refusal>
    ensures { (read_records (length s.now) s.now start ≡ result_of s.now result) × Placed s.now result }
{
    let mut at: usize = 0;
    let mut stage = Mark::Node;
    let mut c = Counts::default();
    while at < s.len() {
        let read = network_record::check_record(s, at, stage, c)?;
        c = c.with(read);
        at = read.end;
        stage = read.mark;
    }
    Ok(c)
}

// The whole file: refusals 1 to 10, 19 and 20.
#[tactic(auto, unfolding(pywr::specs::NetworkFile::parse_network))]
pub fn load(s: &[u8]) -> Result<Counts, Refusal>
    ensures { (parse_network s.now ≡ result_of s.now result) × Placed s.now result }
{
    let c = scan(s)?;
    network_checks::check_network(s, c)?;
    Ok(c)
}
