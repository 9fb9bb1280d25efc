// The numbers in a message's header. Each has a reader with its name and its definition, which one reader by offset would lose.
ghost use Rattle.std.specs.Prelude.{◌≡◌, ◌≤◌, length};
ghost use Rattle.message.specs.Layout.{message_header, message_epoch, message_dimension, message_k, message_p, message_sender, message_receiver, message_trees, message_ghosts};

pub fn epoch(message: &[u8]) -> u32
    requires { message_header ≤ length message.now }
    ensures { result ≡ message_epoch message.now }
{
    encoding::bytes::read_u32(message, 0)
}

pub fn dimension(message: &[u8]) -> u32
    requires { message_header ≤ length message.now }
    ensures { result ≡ message_dimension message.now }
{
    encoding::bytes::read_u32(message, 4)
}

// K.
pub fn trees_below(message: &[u8]) -> u32
    requires { message_header ≤ length message.now }
    ensures { result ≡ message_k message.now }
{
    encoding::bytes::read_u32(message, 8)
}

// P.
pub fn ranks(message: &[u8]) -> u32
    requires { message_header ≤ length message.now }
    ensures { result ≡ message_p message.now }
{
    encoding::bytes::read_u32(message, 12)
}

pub fn sender(message: &[u8]) -> u32
    requires { message_header ≤ length message.now }
    ensures { result ≡ message_sender message.now }
{
    encoding::bytes::read_u32(message, 16)
}

pub fn receiver(message: &[u8]) -> u32
    requires { message_header ≤ length message.now }
    ensures { result ≡ message_receiver message.now }
{
    encoding::bytes::read_u32(message, 20)
}

pub fn tree_count(message: &[u8]) -> u32
    requires { message_header ≤ length message.now }
    ensures { result ≡ message_trees message.now }
{
    encoding::bytes::read_u32(message, 24)
}

pub fn ghost_count(message: &[u8]) -> u32
    requires { message_header ≤ length message.now }
    ensures { result ≡ message_ghosts message.now }
{
    encoding::bytes::read_u32(message, 28)
}
