// The card for C: the seven calls on an image with a ring of keys given as bytes. Every export says by its contract what the card says.
#![tactic(auto)]

mod aes_card;
mod calls;
mod rings;
mod whitened_card;
mod xtea_card;
