use crate::passing::pass;
use lore_base::{CallList, MemSink, MemSource, NoMemory, OemText, Sink, Source};
use std::alloc::Global;
use std::test::Fail;

fn calls(alloc: Global, numbers: &[u64]) -> Result<CallList, NoMemory> {
    let mut list = CallList::new(alloc);
    list.append(numbers)?;
    Ok(list)
}

// A source of nine bytes, in pieces, which fails at these reads.
fn source(alloc: Global, piece: u32, fails: &[u64]) -> Result<MemSource, NoMemory> {
    let fails = calls(alloc, fails)?;
    let bytes = OemText::from_bytes(alloc, b"load A :=")?;
    Ok(MemSource::new(bytes, piece.max(1), fails))
}

// Reads into the buffer: the number of bytes, or 99 where it fails.
fn read(source: &mut MemSource, buffer: &mut [u8]) -> usize {
    source.read(buffer).unwrap_or(99)
}

// Whether reads into the buffer give these numbers of bytes one after another.
fn reads_counts(source: &mut MemSource, buffer: &mut [u8], counts: &[usize]) -> bool {
    for count in counts {
        if read(source, buffer) != *count {
            return false;
        }
    }
    true
}

// Whether reads of at most five bytes give so many, and leave these.
fn reads_five(source: &mut MemSource, counts: &[usize], bytes: &[u8]) -> bool {
    let mut buffer = [0; 5];
    reads_counts(source, &mut buffer, counts) && buffer.as_slice() == bytes
}

// The most bytes of a read and the reads that fail; what four reads of at most five bytes give, or
// 99 where one fails, and the bytes that they leave.
type FourReads = (u32, &'static [u64], &'static [usize], &'static [u8]);

const READS: [FourReads; 4] = [
    (1, &[], &[1, 1, 1, 1], b"d\0\0\0\0"),
    (3, &[2], &[3, 99, 3, 3], b" :=\0\0"),
    (4, &[], &[4, 4, 1, 0], b"=A :\0"),
    (65_536, &[1, 4], &[99, 5, 4, 99], b"A := "),
];

fn reads_so(alloc: Global, (piece, fails, counts, bytes): FourReads) -> Result<bool, NoMemory> {
    let mut source = source(alloc, piece, fails)?;
    let is_so = reads_five(&mut source, counts, bytes);
    drop(source);
    Ok(is_so)
}

fn check_reads(alloc: Global, table: &[FourReads]) -> Result<(), Fail> {
    for reads in table {
        pass(reads_so(alloc, *reads), "a source gives other bytes")?;
    }
    Ok(())
}

// Pieces that are written to a sink with room for nine bytes, four in one write, which fails at
// the second one; and how many bytes of each are taken, or 99 where it fails.
const WRITES: [(&[u8], usize); 7] = [
    (b"rows 2", 4),
    (b" 2", 99),
    (b" 2", 2),
    (b"", 0),
    (b"\nrows", 3),
    (b"ws", 99),
    (b"", 0),
];

fn takes_each(sink: &mut MemSink, writes: &[(&[u8], usize)]) -> bool {
    for (piece, count) in writes {
        if sink.write(piece).unwrap_or(99) != *count {
            return false;
        }
    }
    true
}

// Whether each of these writes takes so many bytes, and the sink has them.
fn takes_writes(alloc: Global) -> Result<bool, NoMemory> {
    let fails = calls(alloc, &[2])?;
    let mut sink = MemSink::new(alloc, 9, 4, fails)?;
    let is_so = takes_each(&mut sink, &WRITES) && sink.bytes() == b"rows 2\nro".as_slice();
    drop(sink);
    Ok(is_so)
}

#[test]
fn ends_in_memory_give_and_keep_pieces_and_fail_where_they_are_told(
    rt: HostRuntime,
) -> Result<(), Fail> {
    check_reads(rt.alloc(), &READS)?;
    pass(takes_writes(rt.alloc()), "a sink keeps other bytes")
}
