//! Reading of the first 13 bytes.
ghost use Rattle.heads.specs.Kinds.{network_code, contract_code};
ghost use Rattle.cursor.specs.Readings.{ranged};
ghost use Rattle.cursor.specs.Cursors.{Took};
ghost use Rattle.draft.specs.Rules.{map_ok};
ghost use Rattle.sheet.specs.Layout.{front, lowest_network, longest_term};
ghost use Rattle.sheet.specs.Sheets.{head_values};
ghost use Rattle.sheet.specs.Readers.{TookKind};

use crate::head::SheetHead;
use cursor::{Cursor, Fault};
use heads::{Contract, Network};

// The head: each value in its range; a card is mobile and has no term.
pub(crate) fn front(cursor: &mut Cursor) -> Result<SheetHead, Fault>
    ensures { Took front cursor.old (map_ok head_values result) cursor.new }
{
    let mut scan = *cursor;
    let contract = contract(&mut scan)?;
    let network = network(&mut scan, contract)?;
    let supplier = scan.number()?;
    let sum = scan.number_in(0, 1_000_000)?;
    let term = term(&mut scan, contract)?;
    let first = scan.number_in(0, 65_534)?;
    let last = scan.number_in(first, 65_535)?;
    *cursor = scan;
    Ok(SheetHead {
        contract,
        network,
        supplier,
        sum,
        term,
        first,
        last,
    })
}

fn contract(cursor: &mut Cursor) -> Result<Contract, Fault>
    ensures { Took (ranged 1 1 2) cursor.old (map_ok contract_code result) cursor.new }
{
    kind(cursor)
}

fn network(cursor: &mut Cursor, contract: Contract) -> Result<Network, Fault>
    ensures { Took (ranged 1 (lowest_network (contract_code contract)) 2) cursor.old (map_ok network_code result) cursor.new }
{
    let mut scan = *cursor;
    let network = kind(&mut scan)?;
    if contract == Contract::Card && network == Network::Fixed {
        return Err(Fault::AgainstRule(cursor.place()));
    }
    *cursor = scan;
    Ok(network)
}

// The kind whose code is the next byte; a byte that is no code is against the rule.
fn kind<K: TryFrom<u8>>(cursor: &mut Cursor) -> Result<K, Fault>
where
    K::Error: Drop,
    ensures { TookKind K.try_from_gives cursor.old result cursor.new }
{
    let mut scan = *cursor;
    let start = scan.place();
    let kind = K::try_from(scan.number()?).map_err(|_| Fault::AgainstRule(start))?;
    *cursor = scan;
    Ok(kind)
}

fn term(cursor: &mut Cursor, contract: Contract) -> Result<u8, Fault>
    ensures { Took (ranged 1 0 (longest_term (contract_code contract))) cursor.old result cursor.new }
{
    let high = match contract {
        Contract::Subscription => 60,
        Contract::Card => 0,
    };
    cursor.number_in(0, high)
}
