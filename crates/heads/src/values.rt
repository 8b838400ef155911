//! The values of a head.
ghost use Rattle.std.specs.Prelude.{◌≡◌};
ghost use Rattle.heads.specs.Kinds.{network_code, contract_code};
ghost use Rattle.heads.specs.Rules.{SoundHead};
ghost use Rattle.heads.specs.Heads.{head_data};

use crate::head::Head;
use crate::kinds::{Contract, Network};

impl Head {
    /// The supplier's number. Every head keeps the rules.
    pub fn supplier(&self) -> u16
        ensures is { result ≡ (head_data self.now).supplier }
        ensures sound { SoundHead (head_data self.now) }
    {
        self.supplier
    }

    /// The name's text.
    pub fn name(&self) -> &[u8]
        ensures { result.now ≡ (head_data self.now).name }
    {
        self.name.text()
    }

    /// The network.
    pub fn network(&self) -> Network
        ensures { network_code result ≡ (head_data self.now).network }
    {
        self.network
    }

    /// The kind of contract.
    pub fn contract(&self) -> Contract
        ensures { contract_code result ≡ (head_data self.now).contract }
    {
        self.contract
    }

    /// The minimum term in months.
    pub fn term(&self) -> u8
        ensures { result ≡ (head_data self.now).term }
    {
        self.term
    }

    /// The first day.
    pub fn first(&self) -> u16
        ensures { result ≡ (head_data self.now).first }
    {
        self.first
    }

    /// The last day; 65,535 means open.
    pub fn last(&self) -> u16
        ensures { result ≡ (head_data self.now).last }
    {
        self.last
    }
}
