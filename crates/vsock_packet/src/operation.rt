// What a packet is for.
ghost use Rattle.std.specs.Prelude.{◌≡◌, Some};
ghost use Rattle.vsock_packet.specs.Operations.{number_of, operation_of};

/// An operation (VIRTIO 1.2, 5.10.6).
#[derive(Clone, Copy, Drop)]
pub enum Operation {
    /// Asks for a connection.
    Request,
    /// Takes a connection that was asked for.
    Response,
    /// Ends a connection, or refuses it.
    Rst,
    /// Ends a connection in the directions that its flags say.
    Shutdown,
    /// Carries bytes.
    Rw,
    /// Tells how much room there is.
    CreditUpdate,
    /// Asks how much room there is.
    CreditRequest,
}

impl Operation {
    /// The operation of this number, if it is the number of one.
    pub fn from_number(number: u16) -> Option<Operation>
        ensures { result ≡ operation_of number }
    {
        match number {
            1 => Some(Operation::Request),
            2 => Some(Operation::Response),
            3 => Some(Operation::Rst),
            4 => Some(Operation::Shutdown),
            5 => Some(Operation::Rw),
            6 => Some(Operation::CreditUpdate),
            7 => Some(Operation::CreditRequest),
            _ => None,
        }
    }

    /// Its number.
    pub fn number(self) -> u16
        ensures number { result ≡ number_of self }
        ensures operation { operation_of result ≡ Some self }
    {
        match self {
            Operation::Request => 1,
            Operation::Response => 2,
            Operation::Rst => 3,
            Operation::Shutdown => 4,
            Operation::Rw => 5,
            Operation::CreditUpdate => 6,
            Operation::CreditRequest => 7,
        }
    }
}
