//! What accepted commands keep of running jobs: what they copy, their works, what their starts found, and the bitmaps in their use.
#![tactic(auto)]

mod laws;
