//! What no clause says: that runs over objects in memory come to their texts.

use crate::mesh::mesh_run;
use std::alloc::Global;
use std::test::Fail;
use willow_outside::{MemSink, MemSource};

// A row comes from node 0 by node 1 to node 2, and node 0 meets node 1 before and behind that.
const THREE: &str =
    "nodes 3\noffer 0 0\noffer 2 1\nmeet 0 1 any 0\nmeet 1 2 any 0\nsame 0 2\nmeet 0 1 any 0\nsame 0 2\n";

const TOLD: &str = "same 0 2 no\nsame 0 2 yes\nnode 0 rows 2\nnode 1 rows 2\nnode 2 rows 2\n";

// Nodes that meet over a subspace and from a time on take over what stands there alone.
const PARTS: &str =
    "nodes 2\noffer 0 0\noffer 0 1\nmeet 0 1 005555555555555555555555555555555555555555555555555555555555555500 0\nsame 1 1\n";

const LATER: &str = "nodes 2\noffer 0 0\noffer 0 1\nmeet 0 1 any 1700000000000001\nsame 0 1\n";

// What a run gives: its status, its output and its report, where these calls of the input and the output are to fail.
fn ran(
    alloc: Global,
    words: &[String],
    text: &[u8],
    reads: &[u64],
    writes: &[u64],
) -> Result<(u8, Vec<u8>, Vec<u8>), Fail> {
    let mut input = MemSource::new(
        alloc,
        Vec::from_slice(alloc, text)?,
        Vec::from_slice(alloc, reads)?,
        4096,
    );
    let mut output = MemSink::new(alloc, Vec::new(alloc), Vec::from_slice(alloc, writes)?, 20);
    let mut report = MemSink::new(alloc, Vec::new(alloc), Vec::new(alloc), 20);
    let status = mesh_run(alloc, words, &mut input, &mut output, &mut report);
    Ok((
        status,
        Vec::from_slice(alloc, output.held())?,
        Vec::from_slice(alloc, report.held())?,
    ))
}

// Whether a run over the text, without a word and a fault, gives these.
fn gives(alloc: Global, text: &str, status: u8, output: &str, report: &str) -> Result<bool, Fail> {
    let given = ran(alloc, &[], text.as_bytes(), &[], &[])?;
    Ok(
        given.0 == status
            && given.1.as_slice() == output.as_bytes()
            && given.2.as_slice() == report.as_bytes(),
    )
}

#[test]
fn rows_go_on_from_node_to_node(rt: HostRuntime) -> Result<(), Fail> {
    let alloc = rt.alloc();
    assert!(rt; gives(alloc, THREE, 0, TOLD, "")?);
    assert!(rt;
        gives(
            alloc,
            PARTS,
            0,
            "same 1 1 yes\nnode 0 rows 2\nnode 1 rows 1\n",
            ""
        )?
    );
    assert!(rt;
        gives(
            alloc,
            LATER,
            0,
            "same 0 1 no\nnode 0 rows 2\nnode 1 rows 1\n",
            ""
        )?
    );
    assert!(rt; gives(alloc, "nodes 1\n", 0, "node 0 rows 0\n", "")?);
    Ok(())
}

#[test]
fn the_first_wrong_line_is_told(rt: HostRuntime) -> Result<(), Fail> {
    let alloc = rt.alloc();
    assert!(rt;
        gives(
            alloc,
            "nodes 2\nmeet 0 0 any 0\n",
            5,
            "",
            "bad input - at 8\n"
        )?
    );
    assert!(rt; gives(alloc, "", 5, "", "bad input - at 0\n")?);
    assert!(rt;
        gives(
            alloc,
            "nodes 2\nsame 0 1\nsame 0 1",
            5,
            "",
            "bad input - at 17\n"
        )?
    );
    Ok(())
}

#[test]
fn an_input_that_is_too_long_is_told_at_its_limit(rt: HostRuntime) -> Result<(), Fail> {
    let alloc = rt.alloc();
    let text = vec![in alloc; b'\n'; 1_048_577]?;
    let given = ran(alloc, &[], &text, &[], &[])?;
    assert!(rt; given.0 == 5);
    assert!(rt; given.2.as_slice() == b"bad input - at 1048576\n".as_slice());
    Ok(())
}

#[test]
fn words_and_faults_are_told(rt: HostRuntime) -> Result<(), Fail> {
    let alloc = rt.alloc();
    let words = vec![in alloc; String::from_str(alloc, "nodes")?]?;
    let given = ran(alloc, &words, THREE.as_bytes(), &[], &[])?;
    assert!(rt; given.0 == 2 && given.2.as_slice() == b"usage\n".as_slice());
    let given = ran(alloc, &[], b"no mesh\n", &[2], &[])?;
    assert!(rt; given.0 == 3 && given.2.as_slice() == b"read fault\n".as_slice());
    let given = ran(alloc, &[], THREE.as_bytes(), &[], &[2])?;
    assert!(rt; given.0 == 4 && given.2.as_slice() == b"write fault\n".as_slice());
    assert!(rt; given.1.as_slice() == b"same 0 2 no\nsame 0 2".as_slice());
    Ok(())
}
