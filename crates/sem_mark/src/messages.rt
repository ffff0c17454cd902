ghost use Rattle.std.specs.Prelude.{◌≡◌};
ghost use Rattle.sem_msg.specs.declared.message.Message.TheVariants.{RevokeDone, RevokeReq};
ghost use Rattle.sem_msg.specs.Message.{Fits};

use sem_key::Key;
use sem_msg::Message;

// The message that asks another kernel to revoke a key, for a job.
pub fn request(key: Key, job: u32) -> Message
    ensures message { result ≡ RevokeReq key job }
    ensures fits { Fits result }
{
    Message::RevokeReq { key, job }
}

// The message that a key is revoked for the job.
pub fn done(job: u32) -> Message
    ensures message { result ≡ RevokeDone job }
    ensures fits { Fits result }
{
    Message::RevokeDone { job }
}
