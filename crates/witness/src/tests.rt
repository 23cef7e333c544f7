// A comparison that cannot fail would show nothing: names that differ are told apart.
use crate::names::Outside;
use crate::tally::Verdict;
use std::alloc::Global;
use std::test::Fail;

// How a line of the outside names comes out.
fn verdict(heap: Global, line: &str) -> Result<Verdict, Fail> {
    let outside = Outside::of(line).ok_or("no opcode and name")?;
    Ok(outside.verdict(heap)?)
}

#[test]
fn equal_names_agree(rt: HostRuntime) -> Result<(), Fail> {
    assert_eq!(rt; verdict(rt.alloc(), "F8 LDI")?, Verdict::Named);
    assert_eq!(rt; verdict(rt.alloc(), "60 IRX")?, Verdict::Named);
    assert_eq!(rt; verdict(rt.alloc(), "68 illegal")?, Verdict::Illegal);
    Ok(())
}

#[test]
fn other_names_differ(rt: HostRuntime) -> Result<(), Fail> {
    assert_eq!(rt; verdict(rt.alloc(), "7A SEQ")?, Verdict::Differs);
    assert_eq!(rt; verdict(rt.alloc(), "F8 LD")?, Verdict::Differs);
    assert_eq!(rt; verdict(rt.alloc(), "F8 LDIX")?, Verdict::Differs);
    assert_eq!(rt; verdict(rt.alloc(), "68 IRX")?, Verdict::Differs);
    assert_eq!(rt; verdict(rt.alloc(), "60 illegal")?, Verdict::Differs);
    Ok(())
}
