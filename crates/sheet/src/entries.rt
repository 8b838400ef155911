//! Entries of a sheet, which go to the draft once their last byte is read.
ghost use Rattle.sheet.specs.Layout.{price_entry, group_entry};
ghost use Rattle.sheet.specs.Readers.{Entered};

use crate::convert::with_byte;
use crate::fault::Fault;
use crate::reader::Reader;

impl<'a> Reader<'a> {
    // A price: a node and its price.
    pub(crate) fn price_entry(self) -> Result<Reader<'a>, Fault>
        ensures { Entered price_entry self.entry result }
    {
        let mut cursor = self.cursor;
        let node: u8 = cursor.number()?;
        let price: u32 = cursor.number()?;
        let draft = with_byte(self.draft.price(node, price), self.cursor.place())?;
        Ok(Reader { cursor, draft })
    }

    // A group: its order, its units, and its nodes behind their count.
    pub(crate) fn group_entry(self) -> Result<Reader<'a>, Fault>
        ensures { Entered group_entry self.entry result }
    {
        let mut cursor = self.cursor;
        let order: u8 = cursor.number()?;
        let units: u32 = cursor.number()?;
        let count = cursor.number_in(1, 40)?;
        let nodes = cursor.run(count)?;
        let draft = with_byte(self.draft.group(order, units, nodes), self.cursor.place())?;
        Ok(Reader { cursor, draft })
    }
}
