//! The pairs of neighbours that a file says.
ghost use Rattle.std.specs.Prelude.{◌≡◌, ◌+◌, ◌-◌, ◌<◌, ◌≤◌, ◌++◌, ℕ, List, [], Err, All, IfOk};
ghost use Rattle.byte_stream.specs.claim.Counts.{counted};
ghost use Rattle.std.specs.Io.KnownBytes.{Consumes};
ghost use Rattle.byte_stream.specs.claim.Reading.{turn_limit};
ghost use Rattle.desk_model.specs.claim.GeographyModels.{AreBlocks};
ghost use Rattle.desk_model.specs.Geography.{AreDifferentBlocks};
ghost use Rattle.desk_model.specs.claim.Geography.{ids_of};
ghost use Rattle.gal_text.specs.claim.Units.{Progress, at_start};
ghost use Rattle.gal_text.specs.Holding.{Holds, IsHeld};
ghost use Rattle.gal_text.specs.claim.GalFile.{IsRead, failures_after_file};
ghost use Rattle.gal_text.specs.Parts.{refused, read_told, pairs_told, Begins, ReadsWords, ReadsGraph, PairsUp, Finishes, TakesTurns};

use crate::fault::{GalFault, TextFault};
use crate::header::header_count;
use crate::links::{Unpaired, first_missing, pairs_of};
use crate::units::{Graph, Link, UnitRefusal};
use byte_stream::reader::{LineReader, ReadFault, Step, WordStep};
use byte_stream::source::Source;
use desk_model::block::{BlockId, BlockRow};
use std::alloc::Global;

fn refused(refusal: UnitRefusal) -> GalFault
    ensures { result ≡ refused refusal }
{
    match refusal {
        UnitRefusal::Fault(fault) => GalFault::Text(fault),
        UnitRefusal::Memory => GalFault::Memory,
    }
}

/// A fault of the reader, where a part that is too long has the fault `long`.
fn read_told(long: TextFault, fault: ReadFault) -> GalFault
    ensures { result ≡ read_told long fault }
{
    match fault {
        ReadFault::TooLong => GalFault::Text(long),
        ReadFault::Failed => GalFault::Read,
        ReadFault::TurnLimit => GalFault::TurnLimit,
    }
}

/// The state before the first word.
fn begin(alloc: Global, line: &[u8], blocks: &[BlockRow]) -> Result<Graph, UnitRefusal>
    ensures { Begins blocks.now line.now result }
{
    let count = match header_count(line) {
        Ok(count) => count,
        Err(fault) => return Err(UnitRefusal::Fault(fault)),
    };
    match Graph::new(alloc, blocks, count) {
        Ok(graph) => Ok(graph),
        Err(_) => Err(UnitRefusal::Memory),
    }
}

/// Takes the words after the header's line, to the end of the source.
fn read_words<R: Source>(
    text: &mut LineReader,
    reader: &mut R,
    blocks: &[BlockRow],
    mut graph: Graph,
) -> Result<Graph, GalFault>
    requires valid { AreBlocks blocks.now }
    requires starts { Holds blocks.now graph (at_start graph.left) }
    requires first { text.old.number ≡ 1 }
    ensures read { (more : List ℕ) × Consumes (R.remaining reader.old) (R.remaining reader.new) more
        × ReadsWords blocks.now graph.left (text.old.held ++ more) (R.remaining reader.new) result }
    ensures turns { TakesTurns (R.failures reader.old) (R.failures reader.new) (R.turns reader.old) (R.turns reader.new) text.old.turns text.new.turns result }
{
    loop {
        match text.advance_word(reader) {
            Ok(WordStep::Word) => {
                if let Err(refusal) = graph.take(blocks, text.number() - 1, text.line()) {
                    return Err(refused(refusal));
                }
            }
            Ok(WordStep::LastWord) => {
                if let Err(refusal) = graph.take(blocks, text.number() - 1, text.line()) {
                    return Err(refused(refusal));
                }
                return Ok(graph);
            }
            Ok(WordStep::End) => return Ok(graph),
            Err(fault) => return Err(read_told(graph.long_fault(text.number()), fault)),
        }
    }
}

/// Takes the header and all words.
fn read_graph<R: Source>(
    alloc: Global,
    text: &mut LineReader,
    reader: &mut R,
    blocks: &[BlockRow],
) -> Result<Graph, GalFault>
    requires valid { AreBlocks blocks.now }
    requires held { text.old.held ≡ [] }
    requires first { text.old.number ≡ 0 }
    ensures read { (came : List ℕ) × Consumes (R.remaining reader.old) (R.remaining reader.new) came
        × ReadsGraph blocks.now came (R.remaining reader.new) result }
    ensures turns { TakesTurns (R.failures reader.old) (R.failures reader.new) (R.turns reader.old) (R.turns reader.new) text.old.turns text.new.turns result }
{
    match text.advance(reader) {
        Ok(Step::Line) => match begin(alloc, text.line(), blocks) {
            Ok(graph) => read_words(text, reader, blocks, graph),
            Err(refusal) => Err(refused(refusal)),
        },
        Ok(Step::LastLine) => match begin(alloc, text.line(), blocks) {
            Ok(graph) => Ok(graph),
            Err(refusal) => Err(refused(refusal)),
        },
        Ok(Step::End) => Err(GalFault::Text(TextFault::Header)),
        Err(fault) => Err(read_told(TextFault::Header, fault)),
    }
}

fn pairs_told(unpaired: Unpaired) -> GalFault
    ensures { result ≡ pairs_told unpaired }
{
    match unpaired {
        Unpaired::OneWay(first, second) => GalFault::OneWay(first, second),
        Unpaired::Memory => GalFault::Memory,
    }
}

/// The pairs, where each block that is listed lists back.
fn paired(alloc: Global, links: Vec<Link>) -> Result<Vec<(BlockId, BlockId)>, GalFault>
    ensures { PairsUp links.items result }
{
    match pairs_of(alloc, links) {
        Ok(pairs) => Ok(pairs),
        Err(unpaired) => Err(pairs_told(unpaired)),
    }
}

/// The pairs, where no word and no unit is wanting and each block that is listed lists back.
fn finish(
    alloc: Global,
    blocks: &[BlockRow],
    graph: Graph,
) -> Result<Vec<(BlockId, BlockId)>, GalFault>
    requires valid { AreBlocks blocks.now }
    requires held { IsHeld blocks.now graph }
    ensures { (p : Progress) → Holds blocks.now graph p → Finishes (ids_of blocks.now) p result }
{
    if !graph.is_done() {
        return Err(GalFault::Text(TextFault::EndsEarly));
    }
    match first_missing(graph.seen.as_slice()) {
        Some(place) => Err(GalFault::MissingUnit(blocks[place].id)),
        None => paired(alloc, graph.links),
    }
}

/// Reads a neighbour file to the end of the source: each pair of neighbours once, the smaller number first, rising.
pub fn read<R: Source>(
    alloc: Global,
    reader: &mut R,
    blocks: &[BlockRow],
) -> Result<Vec<(BlockId, BlockId)>, GalFault>
    requires { AreBlocks blocks.now }
    ensures read { (text : List ℕ) × Consumes (R.remaining reader.old) (R.remaining reader.new) text
        × IsRead (ids_of blocks.now) text (R.remaining reader.new) result }
    ensures valid { IfOk result (λ pairs. All (AreDifferentBlocks blocks.now) pairs.items) }
    ensures failures { R.failures reader.new ≡ failures_after_file (R.failures reader.old) result }
    ensures turns { result ≡ Err GalFault.TurnLimit → R.turns reader.new ≡ counted (R.turns reader.old) turn_limit }
    ensures most { R.turns reader.new ≤ R.turns reader.old + turn_limit }
{
    let Ok(mut text) = LineReader::new(alloc) else {
        return Err(GalFault::Memory);
    };
    match read_graph(alloc, &mut text, reader, blocks) {
        Ok(graph) => finish(alloc, blocks, graph),
        Err(fault) => Err(fault),
    }
}
