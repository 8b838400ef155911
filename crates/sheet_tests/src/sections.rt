//! Reading by sections: a refused section leaves the reader as it was.
use crate::sheets::*;
use sheet::Reader;
use std::test::Fail;

#[test]
fn section_by_section(rt: HostRuntime) -> Result<(), Fail> {
    let sheet = good();
    let mut reader = Reader::new(&sheet, small_tree()?);
    assert!(rt; reader.end().is_err());
    let head = reader.head()?;
    assert!(rt; reader.name()? == b"Ab".as_slice());
    assert!(rt; reader.link()? == b"x".as_slice());
    reader.prices()?;
    reader.groups()?;
    reader.end()?;
    assert!(rt; reader.save(head.sum).is_ok());
    Ok(())
}

#[test]
fn a_refused_section_can_be_read_again(rt: HostRuntime) -> Result<(), Fail> {
    let sheet = with(19, 3);
    let mut reader = Reader::new(&sheet, small_tree()?);
    reader.head()?;
    reader.name()?;
    reader.link()?;
    assert!(rt; reader.prices().is_err());
    // the same bytes as a text: a count of 1 and the byte 3
    assert!(rt; reader.name().is_err());
    assert!(rt; reader.draft().price_at(1).is_none());
    assert!(rt; reader.prices().is_err());
    Ok(())
}
