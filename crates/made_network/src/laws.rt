// What holds of every generated network.
ghost use Rattle.made_network.specs.Made.{MadeIsAccepted};

/// Its rows make a network: nothing that they name is missing, and nothing stands twice.
pub fn is_accepted()
    ensures { MadeIsAccepted }
{}
