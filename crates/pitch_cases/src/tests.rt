// Tables, blocks and texts written out by hand.
use pitch::pack::{PitchFault, pack, unpack};
use pitch_text::show::show;
use pitch_text::text::{TextFault, What, read_table};
use std::alloc::Global;
use std::test::Fail;

const TEXT: &str = "axis Y\nscrew 1204\n5 -3\n-300 32767\n";

const BLOCK: [u8; 16] = [
    80, 84, 1, 0xb4, 4, 2, 0, 0, 5, 0, 0xfd, 0xff, 0xd4, 0xfe, 0xff, 0x7f,
];

fn block_fault(heap: Global, block: &[u8]) -> Option<PitchFault> {
    unpack(heap, block).err()
}

fn text_fault(heap: Global, text: &str) -> Option<TextFault> {
    read_table(heap, text.as_bytes()).err()
}

fn at(line: usize, what: What) -> Option<TextFault> {
    Some(TextFault { line, what })
}

#[test]
fn text_to_block_and_back(rt: HostRuntime) -> Result<(), Fail> {
    let heap = rt.alloc();
    let table = read_table(
        heap,
        b"# from the bench\n axis\tY \r\nscrew 1204\n\n5 -3 # first\n-300 032767",
    )?;
    let block = pack(heap, &table)?;
    assert_eq!(rt; block.as_slice(), BLOCK.as_slice());
    let again = unpack(heap, block.as_slice())?;
    assert_eq!(rt; show(heap, &again)?.as_str(), TEXT);
    Ok(())
}

#[test]
fn damaged_blocks(rt: HostRuntime) {
    let heap = rt.alloc();
    assert_eq!(rt; block_fault(heap, &BLOCK), None);
    assert_eq!(rt; block_fault(heap, &BLOCK[..7]), Some(PitchFault::Header));
    assert_eq!(rt;
        block_fault(heap, b"PT\x00\x01\x00\x00\x00\x01"),
        Some(PitchFault::Header)
    );
    assert_eq!(rt;
        block_fault(heap, b"PT\x03\x01\x00\x00\x00\x00"),
        Some(PitchFault::Axis)
    );
    assert_eq!(rt;
        block_fault(heap, b"PT\x02\x01\x00\xd1\x07\x00"),
        Some(PitchFault::Count)
    );
    assert_eq!(rt; block_fault(heap, &BLOCK[..15]), Some(PitchFault::Length));
}

#[test]
fn lines_of_bad_text(rt: HostRuntime) {
    let heap = rt.alloc();
    assert_eq!(rt; text_fault(heap, TEXT), None);
    assert_eq!(rt; text_fault(heap, ""), at(0, What::Missing));
    assert_eq!(rt; text_fault(heap, "axis X\n\n"), at(2, What::Missing));
    assert_eq!(rt; text_fault(heap, "axis x\n"), at(1, What::Axis));
    assert_eq!(rt; text_fault(heap, "axis X\nscrew 65536"), at(2, What::Screw));
    assert_eq!(rt; text_fault(heap, "\naxis X\n1 2\n"), at(3, What::Early));
    assert_eq!(rt; text_fault(heap, "axis X\naxis X\n"), at(2, What::Twice));
}

#[test]
fn bad_errors(rt: HostRuntime) -> Result<(), Fail> {
    let heap = rt.alloc();
    assert_eq!(rt;
        text_fault(heap, "screw 1\naxis Z\n-32768 32768"),
        at(3, What::Number)
    );
    assert_eq!(rt;
        text_fault(heap, "screw 1\naxis Z\n+1 0"),
        at(3, What::Number)
    );
    assert_eq!(rt;
        text_fault(heap, "screw 1\naxis Z\n- 0"),
        at(3, What::Number)
    );
    assert_eq!(rt;
        text_fault(heap, "screw 1\naxis Z\n1 2 3"),
        at(3, What::Words)
    );
    let fault = TextFault {
        line: 3,
        what: What::Words,
    };
    assert_eq!(rt;
        format!(in heap; "{fault}")?.as_str(),
        "line 3: not two words"
    );
    Ok(())
}
