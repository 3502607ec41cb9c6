//! The audit of the records of a cluster's nodes: whether what they recorded is one run of the cluster.
ghost use Rattle.std.specs.Prelude.{◌≡◌, ◌≢◌, ◌<◌, ◌↔◌, length, map, sum, AllPairs, All, IfOk, IfSome, IfNone, IsTrue};
ghost use Rattle.std.specs.List.{range_with_len};
ghost use Rattle.gb_cluster.specs.Common.{IsClusterPlan};
ghost use Rattle.gb_record_text.specs.{Fits.FitsRecord, Laws.IsAnswered};
ghost use Rattle.gb_audit_run.specs.Counts.{AreCounted};
ghost use Rattle.gb_audit_run.specs.Audits.{AreOfOne, AreRecords, IsAudit, IsOfPlan, entries_of};
ghost use Rattle.gb_audit_run.specs.declared.audit.Verdict.TheVariants.{Whole};

use crate::cluster::{ClusterKeys, are_of_one, plan_of};
use crate::counts::first_gap;
use crate::left::{is_sent, merged_counts, sender_of};
use crate::lines::{
    put_bad_line, put_fault, put_gap, put_left, put_merged, put_stranger, put_tape,
};
use crate::replay::first_wrong;
use gb_cluster::Event;
use gb_merge::AuditFault;
use gb_merge::front::{front_is_one_run, merge_front};
use gb_node::Tape;
use gb_record_text::laws::one_text_one_record;
use gb_record_text::reader::read_record;
use gb_record_text::{ReadFault, Record, RecordHead};
use gb_types::limits::NODES;
use gb_types::memory::put_bytes;
use gb_types::{OutOfMemory, Plan};
use std::alloc::Global;

/// How an audit ended.
#[derive(Clone, Copy, Debug, PartialEq, Eq)]
pub enum Verdict {
    /// All entries of all records are one run of the cluster.
    Whole,
    /// The first entries of the records are one run, and behind them some are left.
    Left,
    /// The records are not what the nodes of one cluster did; the last line says why.
    Refused,
}

/// A file: its name, and what stands in it.
#[derive(Clone, Copy)]
pub struct Source<'a> {
    pub name: &'a str,
    pub text: &'a [u8],
}

/// The part of records that is one run of the cluster.
#[derive(Drop)]
pub struct Audited {
    /// The plan of the cluster that the records are of.
    pub plan: Plan,
    /// The tapes of the records, by the nodes' numbers. It is empty for a node without a record.
    pub tapes: Vec<Tape>,
    /// The events of the run.
    pub events: Vec<Event>,
    pub verdict: Verdict,
}

// What is known of a node's record besides its entries.
#[derive(Clone, Copy)]
struct Label<'a> {
    name: &'a str,
    is_whole: bool,
}

// Returns true if a record may be of another node of the cluster that these are of.
#[tactic(auto, using(crate::proofs::AuditLemmas::none_yet, crate::proofs::AuditLemmas::one_more, crate::proofs::AuditLemmas::all_seen, crate::proofs::AuditLemmas::each_seen))]
fn is_one_more(records: &[Record], record: &Record) -> bool
    ensures { IsTrue result ↔ All (λ r. AreOfOne r.head record.now.head) records.now }
{
    for other in records {
        if !are_of_one(&other.head, &record.head) {
            return false;
        }
    }
    true
}

// Reads the records. `None` if a file is no record, or not one of the first record's cluster; the last line says so.
fn read_all(
    alloc: Global,
    sources: &[Source<'_>],
    out: &mut Vec<u8>,
) -> Result<Option<Vec<Record>>, OutOfMemory>
    ensures records { IfOk result (λ found. IfSome found (λ records. AreRecords sources.now records.items)) }
    ensures fit { IfOk result (λ found. IfSome found (λ records. All FitsRecord records.items)) }
{
    let mut records: Vec<Record> = Vec::new(alloc);
    for source in sources {
        let record = match read_record(alloc, source.text) {
            Ok(record) => record,
            Err(ReadFault::BadLine(line)) => {
                put_bad_line(out, line, source.name)?;
                return Ok(None);
            }
            Err(ReadFault::OutOfMemory) => return Err(OutOfMemory),
        };
        if !is_one_more(&records, &record) {
            put_stranger(out, source.name)?;
            return Ok(None);
        }
        let torn = if record.is_whole {
            None
        } else {
            Some(record.torn)
        };
        put_tape(
            out,
            source.name,
            record.head.node.number,
            record.entries.len(),
            torn,
        )?;
        records.push(record)?;
    }
    Ok(Some(records))
}

// Returns the first lines of records.
fn heads_of(alloc: Global, records: &[Record]) -> Result<Vec<RecordHead>, OutOfMemory>
    ensures { IfOk result (λ heads. heads.items ≡ map (λ r. r.head) records.now) }
{
    let mut heads = Vec::new(alloc);
    for record in records {
        heads.push(record.head)?;
    }
    Ok(heads)
}

// Returns the name of the file at a place.
fn name_at<'a>(sources: &[Source<'a>], place: usize) -> &'a str {
    match sources.get(place) {
        Some(source) => source.name,
        None => "-",
    }
}

// Returns true if each answer of each record is the one that its node returns when it is replayed alone. Otherwise the last line
// says which one is not.
fn are_replayed(
    alloc: Global,
    plan: &Plan,
    sources: &[Source<'_>],
    records: &[Record],
    out: &mut Vec<u8>,
) -> Result<bool, OutOfMemory>
    requires plan { IsClusterPlan plan.now }
    requires here { All (λ r. r.head.node.number < plan.now.nodes) records.now }
    ensures { IfOk result (λ right. IsTrue right → All (λ r. All IsAnswered r.entries.items) records.now) }
{
    for place in 0..records.len() {
        let record = &records[place];
        let node = record.head.node;
        if let Some(wrong) = first_wrong(alloc, plan, node, &record.entries)? {
            let name = name_at(sources, place);
            put_fault(out, AuditFault::Differs.number(), name, wrong)?;
            return Ok(false);
        }
    }
    Ok(true)
}

// An entry whose count is not the next one of its seat: the place of its record, and its own place there.
#[derive(Clone, Copy)]
struct Gap {
    record: usize,
    entry: usize,
}

// Returns the first gap in the counts of the records' entries. `None` if they have none.
fn find_gap(alloc: Global, records: &[Record]) -> Result<Option<Gap>, OutOfMemory>
    ensures { IfOk result (λ found. IfNone found (All (λ r. AreCounted r.entries.items) records.now)) }
{
    for place in 0..records.len() {
        let record = &records[place];
        if let Some(entry) = first_gap(alloc, &record.entries)? {
            return Ok(Some(Gap {
                record: place,
                entry,
            }));
        }
    }
    Ok(None)
}

// Returns a label for each number of a node: the name of its record and whether it is whole.
fn labels_of<'a>(sources: &[Source<'a>], records: &[Record]) -> [Label<'a>; NODES] {
    let mut labels = [Label {
        name: "-",
        is_whole: false,
    }; NODES];
    for place in 0..records.len().min(sources.len()) {
        let record = &records[place];
        labels[record.head.node.index()] = Label {
            name: sources[place].name,
            is_whole: record.is_whole,
        };
    }
    labels
}

// Returns the tapes of records by the numbers of their nodes, with an empty one for each node without a record.
fn tapes_of(alloc: Global, nodes: u8, records: Vec<Record>) -> Result<Vec<Tape>, OutOfMemory>
    requires here { All (λ r. r.head.node.number < nodes) records.items }
    ensures { IfOk result (λ tapes. tapes.items ≡ map (entries_of records.items) (range_with_len 0 nodes)) }
{
    let mut tapes: Vec<Tape> = Vec::new(alloc);
    for _ in 0..nodes {
        tapes.push(Tape::from(Vec::new(alloc)))?;
    }
    let mut left = records;
    while let Some(record) = left.pop() {
        let Record { head, entries, .. } = record;
        tapes[head.node.index()] = Tape::from(entries);
    }
    Ok(tapes)
}

// What is left of a node's record.
#[derive(Clone, Copy, PartialEq, Eq)]
enum Rest {
    // No entry.
    Nothing,
    // Entries that one run may have: a part of another record, which was cut short, may be missing.
    Waiting,
    // Entries. The first one takes a packet that its sender, whose record is whole, did not send.
    Stranger,
}

// Tells what is left of a node's record behind the entries that are in the run.
fn tell_rest(
    plan: &Plan,
    tapes: &[Tape],
    labels: &[Label<'_>; NODES],
    node: u8,
    merged: usize,
    out: &mut Vec<u8>,
) -> Result<Rest, OutOfMemory> {
    let place = usize::from(node);
    let (Some(tape), Some(label)) = (tapes.get(place), labels.get(place)) else {
        return Ok(Rest::Nothing);
    };
    let Some(next) = tape.as_slice().get(merged) else {
        return Ok(Rest::Nothing);
    };
    let sender = sender_of(plan, next);
    if let Some(from) = sender
        && let (Some(theirs), Some(other)) = (tapes.get(from.index()), labels.get(from.index()))
        && other.is_whole
        && !is_sent(theirs.as_slice(), next)
    {
        put_fault(out, AuditFault::Stranger.number(), label.name, merged)?;
        return Ok(Rest::Stranger);
    }
    let count = tape.as_slice().len().saturating_sub(merged);
    let from = match sender {
        Some(from) => Some(from.number),
        None => None,
    };
    put_left(out, label.name, merged, count, from)?;
    Ok(Rest::Waiting)
}

// Returns true if the tapes together have `count` entries.
fn have_entries(tapes: &[Tape], count: usize) -> bool
    ensures { IsTrue result ↔ (count ≡ sum (map length tapes.now)) }
{
    let mut left = count;
    for tape in tapes {
        let entries = tape.as_slice().len();
        if entries > left {
            return false;
        }
        left -= entries;
    }
    left == 0
}

// Tells what is left of each record behind the entries that are in the run.
fn tell_all(
    plan: &Plan,
    tapes: &[Tape],
    labels: &[Label<'_>; NODES],
    counts: &[usize; NODES],
    out: &mut Vec<u8>,
) -> Result<Verdict, OutOfMemory>
    ensures { IfOk result (λ verdict. verdict ≢ Whole) }
{
    let mut is_cut = false;
    for node in 0..plan.nodes {
        let place = usize::from(node);
        let (Some(merged), Some(label)) = (counts.get(place), labels.get(place)) else {
            return Ok(Verdict::Refused);
        };
        is_cut = is_cut || !label.is_whole;
        if tell_rest(plan, tapes, labels, node, *merged, out)? == Rest::Stranger {
            return Ok(Verdict::Refused);
        }
    }
    if is_cut {
        return Ok(Verdict::Left);
    }
    put_bytes(out, b"audit fault 2\n")?;
    Ok(Verdict::Refused)
}

/// Audits the records in `sources`, one for each node and in any order, under the cluster's keys, and appends to `out` a line for each
/// finding. Returns the part of the records that is one run of the cluster, with a verdict: `Whole` if that is all of them, `Left` if
/// entries are left and a record was cut short or is missing, `Refused` if entries are left although all records are whole, or if an
/// entry that is left takes a packet that its sender's whole record did not send. `None` if there is no record, a file is no record, the
/// records are not of one cluster, an answer is not the one that its node returns when it is replayed alone, the counts of a seat's entries
/// have a gap, or no run can be merged; a last line then says why, except if there is no record. `Err` if memory runs out.
pub fn audit(
    alloc: Global,
    sources: &[Source<'_>],
    keys: ClusterKeys,
    out: &mut Vec<u8>,
) -> Result<Option<Audited>, OutOfMemory>
    ensures { IfOk result (λ found. IfSome found (IsAudit sources.now keys)) }
{
    let Some(records) = read_all(alloc, sources, out)? else {
        return Ok(None);
    };
    let heads = heads_of(alloc, &records)?;
    let Some(plan) = plan_of(&heads, keys) else {
        if let Some(source) = sources.first() {
            put_stranger(out, source.name)?;
        }
        return Ok(None);
    };
    if !are_replayed(alloc, &plan, sources, &records, out)? {
        return Ok(None);
    }
    one_text_one_record();
    let gap = find_gap(alloc, &records)?;
    let labels = labels_of(sources, &records);
    let tapes = tapes_of(alloc, plan.nodes, records)?;
    front_is_one_run();
    let events = match merge_front(alloc, &plan, &tapes) {
        Ok(events) => events,
        Err(AuditFault::OutOfMemory) => return Err(OutOfMemory),
        Err(_) => {
            put_bytes(out, b"audit fault 3\n")?;
            return Ok(None);
        }
    };
    let verdict = if have_entries(&tapes, events.len()) {
        Verdict::Whole
    } else {
        let counts = merged_counts(alloc, &tapes, &events)?;
        tell_all(&plan, &tapes, &labels, &counts, out)?
    };
    if let Some(Gap { record, entry }) = gap {
        put_gap(out, name_at(sources, record), entry)?;
        return Ok(None);
    }
    put_merged(out, events.len())?;
    Ok(Some(Audited {
        plan,
        tapes,
        events,
        verdict,
    }))
}
