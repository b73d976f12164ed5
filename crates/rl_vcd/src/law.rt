//! What holds of the transfers that are drawn. Each function does nothing; its contract is the law.
ghost use Rattle.rl_vcd.specs.Adapted.{TransferIsDrawn};

/// What is drawn for an item that went through the APB adapter is the text of the transfer which the adapter made of
/// it, and of the device's response to this, by what an adapter promises of both.
pub fn an_items_transfer_is_drawn()
    ensures { TransferIsDrawn }
{}
