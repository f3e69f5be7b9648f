// The texts of two certificates, and the first faults of texts that differ from the first one in a little.
ghost use Rattle.std.specs.Prelude.{◌≡◌, ◌<◌, ◌≤◌, IfOk};
ghost use Rattle.cert_text.specs.Certs.{HasEdge, IsWritable, RowFromOne};

use cert_text::*;
use cross_bound::Side;
use edge_table::{Edge, EdgeSeq, Rounds};
use host_io::Bytes;
use match_bound::Perm;
use pair_rows::{End, Evidence, Row};
use std::alloc::{AllocError, Global};
use std::test::*;
use tri_check::Uid;

// A certificate of two triangulations of a square.
const LINES: [&str; 14] = [
    "flipcentre-certificate 1\n",
    "uid 51\n",
    "inputs 2\n",
    "opening 1\n",
    "total 1\n",
    "bound 1\n",
    "journal 0\n",
    "rows 1\n",
    "row 0 1 1\n",
    "crosses first 0 2 1\n",
    "met 1\n",
    "round 0 2\n",
    "pack 1 0\n",
    "end\n",
];

// That certificate in version 3.
const SQUARE_WITH_COPIES: &str =
    "flipcentre-certificate 3\nuid 51\ninputs 2 2\nopening 1\ntotal 1\nbound 1\njournal 0\nrows 1\nrow 0 1 1\ncrosses first 0 2 1\nmet 1\nround 0 2\npack 1 0\nend\n";

// A certificate of one triangulation of the square, and the same in version 3.
const ALONE: &str =
    "flipcentre-certificate 1\nuid 51\ninputs 1\nopening 1\ntotal 0\nbound 0\njournal 1\nmove 0 0 2\nrows 0\npack 0\nend\n";

const ALONE_WITH_COPIES: &str =
    "flipcentre-certificate 3\nuid 51\ninputs 1 1\nopening 1\ntotal 0\nbound 0\njournal 1\nmove 0 0 2\nrows 0\npack 0\nend\n";

// Each kind of line.
const ALL_KINDS: &str =
    "flipcentre-certificate 3\nuid -\ninputs 3 4\nopening 12\ntotal 5\nbound 4\njournal 2\nmove 0 0 2 1 3\nswap 7 1 2\nround\nround 0 4 1 5\nrows 4\nrow 0 1 3\nrefuted 2 2\n60 1 -2 0 5 7 0\n61 0 60 3 0\nmet 3\nround 1 5\nround 1 4\nround 1 3\nrow 0 2 1\ncrosses second 1 4 1\nspent 1 1\n30 -1 2 3 0 1 0\nrow 1 2 6\ncrosses first 0 2 61\ntoolarge 6 95970000\nrow 2 3 0\nnone\nmanypoints 65\npack 1 0 3 2\nend\n";

// Lines put in place of one, which counts from 1. No line has place 0.
type Edit<'a> = (usize, &'a str);

const NO_EDIT: Edit<'static> = (0, "");

// The lines of the square with lines put in place of some.
fn edited(alloc: Global, first: Edit, second: Edit) -> Result<String, AllocError> {
    let mut text = String::new(alloc);
    for (i, line) in LINES.iter().enumerate() {
        let place = i + 1;
        if place == first.0 {
            text.push_str(first.1)?;
        } else if place == second.0 {
            text.push_str(second.1)?;
        } else {
            text.push_str(line)?;
        }
    }
    Ok(text)
}

fn diagonal(alloc: Global) -> Result<EdgeSeq, AllocError> {
    let mut edges = EdgeSeq::make(alloc);
    edges.push(Edge::of(0, 2).ok_or(AllocError)?)?;
    Ok(edges)
}

fn square_row(alloc: Global) -> Result<Row, AllocError>
    ensures { IfOk result (λ row. RowFromOne row) }
{
    let edge = Edge::of(0, 2).ok_or(AllocError)?;
    let mut rounds = Rounds::make(alloc);
    rounds.push(diagonal(alloc)?)?;
    Ok(Row {
        i: 0,
        j: 1,
        lower: 1,
        evidence: Evidence::Crosses {
            from: Side::First,
            edge,
            count: 1,
        },
        end: End::Met(rounds),
    })
}

fn square(alloc: Global, version: u32) -> Result<Cert, AllocError>
    requires { (1 ≤ version) × (version ≤ 3) }
    ensures { IfOk result (λ c. IsWritable c) }
{
    let mut rows = RowList::make(alloc);
    rows.push(square_row(alloc)?)?;
    Ok(Cert {
        version,
        uid: Uid::of(alloc, "Q")?,
        inputs: 2,
        copies: 2,
        opening: 1,
        total: 1,
        bound: 1,
        journal: JournalLines::make(alloc),
        rows,
        perm: Perm::of(alloc, &[1, 0])?,
    })
}

fn moved(alloc: Global) -> Result<JournalLine, AllocError>
    ensures { IfOk result (λ line. HasEdge line) }
{
    let mut edges = EdgeSeq::make(alloc);
    edges.push(Edge::of(0, 2).ok_or(AllocError)?)?;
    Ok(JournalLine::Move { turn: 0, edges })
}

fn alone(alloc: Global, version: u32) -> Result<Cert, AllocError>
    requires { (1 ≤ version) × (version ≤ 3) }
    ensures { IfOk result (λ c. IsWritable c) }
{
    let mut journal = JournalLines::make(alloc);
    journal.push(moved(alloc)?)?;
    Ok(Cert {
        version,
        uid: Uid::of(alloc, "Q")?,
        inputs: 1,
        copies: 1,
        opening: 1,
        total: 0,
        bound: 0,
        journal,
        rows: RowList::make(alloc),
        perm: Perm::of(alloc, &[0])?,
    })
}

fn fault_of(alloc: Global, text: &[u8]) -> Option<CertReadFault> {
    read_cert(alloc, text).err()
}

fn fault_at(line: u64, kind: CertKind) -> Option<CertReadFault> {
    Some(CertReadFault::Cert(CertFault { line, kind }))
}

// An equal certificate, with copies of all that takes memory.
fn copied(cert: &Cert) -> Result<Cert, AllocError>
    ensures { IfOk result (λ made. made ≡ cert.now) }
{
    Ok(Cert {
        version: cert.version,
        uid: cert.uid.copy()?,
        inputs: cert.inputs,
        copies: cert.copies,
        opening: cert.opening,
        total: cert.total,
        bound: cert.bound,
        journal: cert.journal.copy()?,
        rows: cert.rows.copy()?,
        perm: cert.perm.copy()?,
    })
}

// The text of a copy of the certificate that a text spells.
fn written_again(alloc: Global, text: &str) -> Option<Bytes> {
    let cert = read_cert(alloc, text.as_bytes()).ok()?;
    write_cert(alloc, &copied(&cert).ok()?).ok()
}

#[test]
fn a_square_is_written(rt: HostRuntime) -> Result<(), AllocError> {
    let first = square(rt.alloc(), 1)?;
    let text = edited(rt.alloc(), NO_EDIT, NO_EDIT)?;
    assert_eq!(rt; write_cert(rt.alloc(), &first)?.as_slice(), text.as_bytes());
    let third = square(rt.alloc(), 3)?;
    assert_eq!(rt;
        write_cert(rt.alloc(), &third)?.as_slice(),
        SQUARE_WITH_COPIES.as_bytes()
    );
    Ok(())
}

#[test]
fn a_single_input_is_written(rt: HostRuntime) -> Result<(), AllocError> {
    let first = alone(rt.alloc(), 1)?;
    assert_eq!(rt;
        write_cert(rt.alloc(), &first)?.as_slice(),
        ALONE.as_bytes()
    );
    let third = alone(rt.alloc(), 3)?;
    assert_eq!(rt;
        write_cert(rt.alloc(), &third)?.as_slice(),
        ALONE_WITH_COPIES.as_bytes()
    );
    Ok(())
}

#[test]
fn what_was_read_is_written_again(rt: HostRuntime) {
    for text in [SQUARE_WITH_COPIES, ALONE, ALONE_WITH_COPIES, ALL_KINDS] {
        let Some(again) = written_again(rt.alloc(), text) else {
            assert!(rt; false, "{text}");
            return;
        };
        assert_eq!(rt; again.as_slice(), text.as_bytes());
    }
}

#[test]
fn the_first_line_that_may_not_stand_there_is_named(rt: HostRuntime) -> Result<(), AllocError> {
    let rows: [(Edit, Edit, u64); 10] = [
        ((1, "flipcentre-certificate 9\n"), NO_EDIT, 1),
        ((1, "flipcentre-certificate 3\n"), NO_EDIT, 3),
        ((2, "uid 5\n"), NO_EDIT, 2),
        ((2, "uid FF\n"), NO_EDIT, 2),
        ((2, "uid ff\n"), NO_EDIT, 2),
        ((2, "uid \n"), NO_EDIT, 2),
        ((3, "inputs 3\n"), NO_EDIT, 13),
        (
            (5, "total 340282366920938463463374607431768211456\n"),
            NO_EDIT,
            5,
        ),
        ((6, "bound 01\n"), NO_EDIT, 6),
        ((8, "rows 0\n"), NO_EDIT, 9),
    ];
    for (first, second, line) in rows {
        let text = edited(rt.alloc(), first, second)?;
        let got = fault_of(rt.alloc(), text.as_bytes());
        assert_eq!(rt; got, fault_at(line, CertKind::Shape), "{text}");
    }
    Ok(())
}

#[test]
fn what_an_instance_decides_is_no_fault(rt: HostRuntime) -> Result<(), AllocError> {
    let rows: [(Edit, Edit); 10] = [
        ((1, "flipcentre-certificate 2\n"), NO_EDIT),
        ((2, "uid 52\n"), NO_EDIT),
        ((3, "inputs 3\n"), (13, "pack 1 0 2\n")),
        ((9, "row 0 1 2\n"), NO_EDIT),
        ((9, "row 1 0 1\n"), NO_EDIT),
        ((10, "crosses first 1 3 1\n"), NO_EDIT),
        ((10, "crosses first 0 2 2\n"), NO_EDIT),
        ((11, "met 2\n"), (12, "round 0 2\nround\n")),
        ((12, "round\n"), NO_EDIT),
        ((12, "round 0 1\n"), NO_EDIT),
    ];
    for (first, second) in rows {
        let text = edited(rt.alloc(), first, second)?;
        assert_eq!(rt; fault_of(rt.alloc(), text.as_bytes()), None, "{text}");
    }
    Ok(())
}

// A line that is doubled puts the next one where it may not stand; one that is left out, too.
#[test]
fn a_doubled_or_missing_line_is_named(rt: HostRuntime) -> Result<(), AllocError> {
    for (i, line) in LINES.iter().enumerate() {
        let place = i + 1;
        let number = place as u64;
        let twice = format!(in rt.alloc(); "{line}{line}")?;
        let doubled = edited(rt.alloc(), (place, twice.as_str()), NO_EDIT)?;
        let without = edited(rt.alloc(), (place, ""), NO_EDIT)?;
        let last = place == LINES.len();
        let (behind, lacking) = if last {
            (CertKind::Rest, CertKind::Cut)
        } else {
            (CertKind::Shape, CertKind::Shape)
        };
        assert_eq!(rt;
            fault_of(rt.alloc(), doubled.as_bytes()),
            fault_at(number + 1, behind)
        );
        assert_eq!(rt;
            fault_of(rt.alloc(), without.as_bytes()),
            fault_at(number, lacking)
        );
    }
    Ok(())
}

// The text up to each byte lacks the line in which that byte stands.
#[test]
fn each_beginning_is_cut_at_the_line_that_it_lacks(rt: HostRuntime) -> Result<(), AllocError> {
    let text = edited(rt.alloc(), NO_EDIT, NO_EDIT)?;
    let bytes = text.as_bytes();
    let mut line = 1;
    for i in 0..bytes.len() {
        assert_eq!(rt;
            fault_of(rt.alloc(), &bytes[..i]),
            fault_at(line, CertKind::Cut)
        );
        if bytes[i] == 10 {
            line = line.saturating_add(1);
        }
    }
    Ok(())
}

// No line has a question mark. In place of a line feed it joins two lines to one, and in place of the last it leaves a line without its line feed.
#[test]
fn a_question_mark_is_a_fault_of_the_line_in_which_it_stands(
    rt: HostRuntime,
) -> Result<(), AllocError> {
    let text = edited(rt.alloc(), NO_EDIT, NO_EDIT)?;
    let mut bytes = text.as_bytes().to_vec(rt.alloc())?;
    let mut line = 1;
    for i in 0..bytes.len() {
        let byte = bytes[i];
        bytes[i] = 63;
        let kind = if i + 1 == bytes.len() {
            CertKind::Cut
        } else {
            CertKind::Shape
        };
        assert_eq!(rt; fault_of(rt.alloc(), &bytes), fault_at(line, kind));
        bytes[i] = byte;
        if byte == 10 {
            line = line.saturating_add(1);
        }
    }
    Ok(())
}

// One byte of a line is another one.
#[test]
fn a_changed_number_or_name_is_named(rt: HostRuntime) -> Result<(), AllocError> {
    let rows: [(Edit, u64); 14] = [
        ((1, "flipcentre-certificate 4\n"), 1),
        ((2, "uid 5A\n"), 2),
        ((3, "inputs 1\n"), 13),
        ((4, "opening -\n"), 4),
        ((5, "Total 1\n"), 5),
        ((6, "bound 1 "), 6),
        ((7, "journal 1\n"), 8),
        ((8, "rows 2\n"), 13),
        ((9, "row 0 111\n"), 9),
        ((10, "crosses first 2 2 1\n"), 10),
        ((11, "met 0\n"), 12),
        ((12, "round 002\n"), 12),
        ((13, "pack 110\n"), 13),
        ((14, "eNd\n"), 14),
    ];
    for (edit, line) in rows {
        let text = edited(rt.alloc(), edit, NO_EDIT)?;
        let got = fault_of(rt.alloc(), text.as_bytes());
        assert_eq!(rt; got, fault_at(line, CertKind::Shape), "{text}");
    }
    Ok(())
}

#[test]
fn a_text_ends_with_its_last_line(rt: HostRuntime) -> Result<(), AllocError> {
    let with_more = edited(rt.alloc(), (14, "end\n "), NO_EDIT)?;
    assert_eq!(rt;
        fault_of(rt.alloc(), with_more.as_bytes()),
        fault_at(15, CertKind::Rest)
    );
    assert_eq!(rt; fault_of(rt.alloc(), b""), fault_at(1, CertKind::Cut));
    Ok(())
}
