//! The good sheet, and what a faulty one is told.
use refusal::{Layer, Row, Value};
use sheet::read;
use std::test::Fail;
use tree::ServiceTree;

// A tree of a top node and two end services under it.
pub(crate) fn small_tree() -> Result<ServiceTree, tree::Refusal> {
    ServiceTree::new(&[255, 0, 0])
}

// A mobile subscription of supplier 7 at 10.00, for 12 months, from day 1 on: Ab, at x; a price at node 1, and 10 units for it.
pub(crate) fn good() -> [u8; 32] {
    [
        1, 2, 0, 7, 0, 0, 3, 232, 12, 0, 1, 255, 255, 2, 65, 98, 1, 120, 1, 1, 0, 0, 0, 100, 1, 5,
        0, 0, 0, 10, 1, 1,
    ]
}

// The good sheet with another byte at a place.
pub(crate) fn with(at: usize, byte: u8) -> [u8; 32] {
    let mut sheet = good();
    if let Some(old) = sheet.get_mut(at) {
        *old = byte;
    }
    sheet
}

// The number and the values that a sheet is refused with; 0 where it is read.
pub(crate) fn refusal_of(sheet: &[u8]) -> Result<(u16, [Option<Value>; 3]), tree::Refusal> {
    Ok(match read(sheet, &small_tree()?) {
        Ok(_) => (0, [None; 3]),
        Err(fault) => (
            fault.number(),
            [fault.value(0), fault.value(1), fault.value(2)],
        ),
    })
}

// The sheet is refused with this number and these values.
fn check_refusal(sheet: &[u8], number: u16, values: [Option<Value>; 3]) -> Result<(), Fail> {
    let told = refusal_of(sheet)?;
    let wanted = (number, values);
    if told == wanted {
        Ok(())
    } else {
        Err(Fail::new(format_args!("{told:?} and not {wanted:?}")))
    }
}

// The sheet is refused by the layout, at a byte.
pub(crate) fn against_layout(sheet: &[u8], number: u16, byte: u64) -> Result<(), Fail> {
    let layer = Value::Layer(Layer::Layout);
    check_refusal(sheet, number, [Some(Value::Byte(byte)), Some(layer), None])
}

// The sheet is refused by the draft, at a byte, with no node.
pub(crate) fn against_draft(sheet: &[u8], number: u16, byte: u64) -> Result<(), Fail> {
    let layer = Value::Layer(Layer::Draft);
    check_refusal(sheet, number, [Some(Value::Byte(byte)), Some(layer), None])
}

// The sheet is refused by the draft, at a byte, with a node.
pub(crate) fn at_node(sheet: &[u8], number: u16, node: u64, byte: u64) -> Result<(), Fail> {
    let layer = Value::Layer(Layer::Draft);
    check_refusal(
        sheet,
        number,
        [
            Some(Value::Node(node)),
            Some(Value::Byte(byte)),
            Some(layer),
        ],
    )
}

#[test]
fn a_good_sheet_is_read(rt: HostRuntime) -> Result<(), Fail> {
    let sheet = good();
    let read = read(&sheet, &small_tree()?)?;
    assert_eq!(rt; read.head.supplier, 7);
    assert_eq!(rt; read.head.sum, 1_000);
    assert_eq!(rt; read.head.term, 12);
    assert_eq!(rt; read.head.first, 1);
    assert_eq!(rt; read.head.last, 65_535);
    let name = read.name_in(&sheet).ok_or("no name")?;
    assert!(rt; name == b"Ab".as_slice());
    let link = read.link_in(&sheet).ok_or("no link")?;
    assert!(rt; link == b"x".as_slice());
    Ok(())
}
