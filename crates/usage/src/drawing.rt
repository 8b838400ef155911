//! One group: what it takes to make one, and how it is drawn.
ghost use Rattle.std.specs.Prelude.{◌≡◌, ◌≤◌, Some, None, MatchResult};
ghost use Rattle.usage.specs.Drawing.{used, used_at, drawn};
ghost use Rattle.usage.specs.Groups.{group_data, data_of, shape_cause};
ghost use Rattle.usage.specs.Laws.{FairDraw};

use crate::group::{Group, MOST_UNITS};
use crate::refusing::Refusal;
use crate::seats::Seats;
use crate::uses::Uses;
use std::array;

impl Group {
    /// The group of these members, units and order: refused with 34 without a member, with 32 over 1,600,000 units.
    pub fn new(members: Seats, units: u32, order: u8) -> Result<Group, Refusal>
        ensures { MatchResult result (λ g. (shape_cause (group_data members.flags units order) ≡ None) × (data_of g ≡ group_data members.flags units order)) (λ e. shape_cause (group_data members.flags units order) ≡ Some e) }
    {
        if members.is_empty() {
            return Err(Refusal::EmptyGroup);
        }
        if units > MOST_UNITS {
            return Err(Refusal::OutOfRange);
        }
        Ok(Group {
            members,
            units,
            order,
        })
    }

    /// The list of uses after the group was drawn, by the rule of cumulated floors.
    pub fn draw(&self, uses: Uses) -> Uses
        ensures is { result.parts ≡ drawn self.now.members.flags self.now.units uses.parts }
        ensures fair { FairDraw self.now.members.flags self.now.units uses.parts result.parts }
    {
        let s = self.members_use(&uses);
        if s == 0 {
            return uses;
        }
        let q = s.min(self.units as u64 * 1000);
        // Each turn reads whether a seat is a member and its use, writes what is left there, and carries two sums on.
        let mut parts = [0; 16];
        let mut p: u64 = 0;
        let mut before: u64 = 0;
        for i in 0..16 {
            let u = uses.parts[i];
            if self.members.flags[i] {
                p += u as u64;
                let floor = q * p / s;
                parts[i] = u - (floor - before) as u32;
                before = floor;
            } else {
                parts[i] = u;
            }
        }
        Uses { parts }
    }

    // The sum of the members' uses.
    fn members_use(&self, uses: &Uses) -> u64
        ensures is { result ≡ used self.now.members.flags uses.now.parts }
        ensures bound { result ≤ 1600000000 }
    {
        let flags = self.members.flags;
        let each: [u64; 16] = array::from_fn(|seat| used_at(flags[seat], uses.parts[seat]));
        each.iter().sum()
    }

    /// The seats that share the units.
    pub fn members(&self) -> Seats
        ensures { result ≡ self.now.members }
    {
        self.members
    }

    /// The whole units that the seats share.
    pub fn units(&self) -> u32
        ensures is { result ≡ self.now.units }
        ensures bound { result ≤ 1600000 }
    {
        self.units
    }

    /// The group's order in its tariff.
    pub fn order(&self) -> u8
        ensures { result ≡ self.now.order }
    {
        self.order
    }
}

// What a seat adds to the sum: its use, if it is a member.
fn used_at(member: bool, parts: u32) -> u64
    ensures is { result ≡ used_at member parts }
{
    if member { u64::from(parts) } else { 0 }
}
