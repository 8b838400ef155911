//! Networks and kinds of contract, with their codes.
ghost use Rattle.std.specs.Prelude.{◌≡◌};
ghost use Rattle.heads.specs.Kinds.{network_code, contract_code};
ghost use Rattle.heads.specs.Codes.{Decodes};

/// The network that an offer is for.
#[derive(Clone, Copy, Debug, PartialEq)]
pub enum Network {
    /// Code 1.
    Fixed,
    /// Code 2.
    Mobile,
}

/// The kind of contract that an offer is.
#[derive(Clone, Copy, Debug, PartialEq)]
pub enum Contract {
    /// Code 1.
    Subscription,
    /// Code 2.
    Card,
}

/// A code that is no network's, or no kind of contract's.
#[derive(Clone, Copy, Debug, PartialEq, Eq)]
pub struct UnknownCode(pub u8);

impl TryFrom<u8> for Network {
    type Error = UnknownCode;

    ghost try_from_gives = { Decodes network_code };

    fn try_from(code: u8) -> Result<Network, UnknownCode> {
        match code {
            1 => Ok(Network::Fixed),
            2 => Ok(Network::Mobile),
            _ => Err(UnknownCode(code)),
        }
    }
}

impl From<Network> for u8 {
    ghost from_gives = { λ network code. code ≡ network_code network };

    fn from(network: Network) -> u8 {
        match network {
            Network::Fixed => 1,
            Network::Mobile => 2,
        }
    }
}

impl TryFrom<u8> for Contract {
    type Error = UnknownCode;

    ghost try_from_gives = { Decodes contract_code };

    fn try_from(code: u8) -> Result<Contract, UnknownCode> {
        match code {
            1 => Ok(Contract::Subscription),
            2 => Ok(Contract::Card),
            _ => Err(UnknownCode(code)),
        }
    }
}

impl From<Contract> for u8 {
    ghost from_gives = { λ contract code. code ≡ contract_code contract };

    fn from(contract: Contract) -> u8 {
        match contract {
            Contract::Subscription => 1,
            Contract::Card => 2,
        }
    }
}
