/// The id of an open job, and the place in the slab where the job lies.
#[derive(Clone, Copy, Debug)]
pub struct IdSpot {
    pub id: u32,
    pub place: usize,
}
